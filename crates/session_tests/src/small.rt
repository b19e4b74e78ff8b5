// Small tasks, refusals, and a list of calls worked in one.
use crate::made::*;
use figure::figure::Figure;
use queue::queue::Queue;
use queue::table::TableQueue;
use rules::additive::AdditiveRule;
use session::call::{Answer, Call};
use session::session::Session;
use std::test::Fail;

// What is looked at of an answer: the number of its refusal, how many rows it has, the number that it tells.
type Seen = (Option<u8>, Option<usize>, Option<u32>);

fn seen(answer: &Answer) -> Seen {
    match answer {
        Answer::Refused(fault) => (fault.number(), None, None),
        Answer::Wrote(docket) => (None, Some(docket.len()), None),
        Answer::Is(figure) => (None, None, figure.number()),
        Answer::Told(_) => (None, None, None),
    }
}

// Facts 1 and 2 hold each other up, and fall when fact 0 does: six rows down, six rows up.
#[test]
fn the_fed_circle(rt: HostRuntime) -> Result<(), Fail> {
    let heap = rt.alloc();
    let queue: TableQueue<Figure> = TableQueue::new(heap, 6)?;
    let calls = [
        Call::Goal,
        Call::Settle(11),
        Call::Settle(12),
        Call::Figure(2),
        Call::Strike(0),
        Call::Figure(2),
        Call::Settle(12),
        Call::Figure(6),
        Call::Goal,
        Call::Enter(0),
        Call::Enter(3),
        Call::Settle(12),
        Call::Goal,
    ];
    let Ok(worked) = Session::open_and_work(heap, task_c(heap)?, AdditiveRule, queue, &calls) else {
        return Err(Fail::new("a session that should open"));
    };
    let (_session, answers) = worked;
    assert!(rt; answers.len() == 13);
    let wanted = [
        (Some(9), None, None),
        (Some(10), None, None),
        (None, Some(6), None),
        (None, None, Some(4)),
        (None, None, None),
        (Some(9), None, None),
        (None, Some(6), None),
        (Some(8), None, None),
        (None, None, None),
        (None, None, None),
        (Some(8), None, None),
        (None, Some(6), None),
        (None, None, Some(2)),
    ];
    for (answer, wish) in answers.iter().zip(wanted.iter()) {
        assert!(rt; seen(answer) == *wish);
    }
    Ok(())
}

// Fact 1 goes 2, none, 4: four rows.
#[test]
fn another_way(rt: HostRuntime) -> Result<(), Fail> {
    let heap = rt.alloc();
    let queue: TableQueue<Figure> = TableQueue::new(heap, 7)?;
    let calls = [
        Call::Settle(14),
        Call::Figure(1),
        Call::Strike(0),
        Call::Settle(99),
        Call::Figure(1),
    ];
    let Ok(worked) = Session::open_and_work(heap, task_d(heap)?, AdditiveRule, queue, &calls) else {
        return Err(Fail::new("a session that should open"));
    };
    let (_session, answers) = worked;
    assert!(rt; answers.len() == 5);
    let wanted = [
        (None, Some(7), None),
        (None, None, Some(2)),
        (None, None, None),
        (None, Some(4), None),
        (None, None, Some(4)),
    ];
    for (answer, wish) in answers.iter().zip(wanted.iter()) {
        assert!(rt; seen(answer) == *wish);
    }
    Ok(())
}

// A queue that is too small or not empty comes back as it was.
#[test]
fn unfit_queues(rt: HostRuntime) -> Result<(), Fail> {
    let heap = rt.alloc();
    let small: TableQueue<Figure> = TableQueue::new(heap, 5)?;
    match Session::open(heap, task_c(heap)?, AdditiveRule, small) {
        Ok(_session) => return Err(Fail::new("a queue that is too small")),
        Err(refused) => assert!(rt;
            refused.fault.number() == Some(11) && refused.queue.capacity() == 5
        ),
    }
    let mut full: TableQueue<Figure> = TableQueue::new(heap, 6)?;
    let _ = full.put(2, Figure::of(7));
    match Session::open(heap, task_c(heap)?, AdditiveRule, full) {
        Ok(_session) => Err(Fail::new("a queue that is not empty")),
        Err(refused) => {
            assert!(rt; refused.fault.number() == Some(11) && refused.queue.holds(2));
            Ok(())
        },
    }
}
