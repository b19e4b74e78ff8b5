// Plans, endings and refusals.
use crate::misleading::{Misleading, Unfit};
use crate::tasks::{blocked, detour, hanoi};
use estimator::blind::Blind;
use estimator::estimator::Estimator;
use estimator::keeping::Keeping;
use estimator::larger::Larger;
use heap::heap::HeapQueue;
use queue::key::Pair;
use queue::queue::Queue;
use queue::table::TableQueue;
use rehearsal::rehearse::rehearse;
use rehearsal::verdict::Verdict;
use rows::row::Row;
use search::search::search;
use search_law::outcome::Outcome;
use search_law::refusal::SearchRefusal;
use std::test::Fail;
use strips::state::State;
use strips::task::Task;

#[test]
fn hanoi_blind(rt: HostRuntime) -> Result<(), Fail> {
    let heap = rt.alloc();
    let task = hanoi(heap).ok_or("no task")?;
    let mut start = task.start_state();
    let mut queue: TableQueue<Pair> = <TableQueue<_> as Queue>::new(heap, 40)?;
    let mut rows = [Row::unused(); 40];
    let mut steps = [99u16; 40];
    let outcome = search(&task, &start, &mut Blind, &mut queue, &mut rows, &mut steps);
    let plan = matches!(outcome, Ok(Outcome::Plan { length: 7, used }) if used <= 27);
    assert!(rt; plan);
    assert!(rt; queue.is_empty() && steps[7] == 99 && !rows[30].opened);
    let good = matches!(rehearse(&task, &mut start, &steps[0..7]), Ok(Verdict::Plan));
    assert!(rt; good);
    Ok(())
}

#[test]
fn hanoi_composed(rt: HostRuntime) -> Result<(), Fail> {
    let heap = rt.alloc();
    let task = hanoi(heap).ok_or("no task")?;
    let mut start = task.start_state();
    let mut est = Keeping::new(Larger::new(Blind, Blind));
    let mut queue: HeapQueue<Pair> = <HeapQueue<_> as Queue>::new(heap, 27)?;
    let mut rows = [Row::unused(); 27];
    let mut steps = [99u16; 27];
    let outcome = search(&task, &start, &mut est, &mut queue, &mut rows, &mut steps);
    let plan = matches!(outcome, Ok(Outcome::Plan { length: 7, .. }));
    assert!(rt; plan);
    let good = matches!(rehearse(&task, &mut start, &steps[0..7]), Ok(Verdict::Plan));
    assert!(rt; good);
    Ok(())
}

#[test]
fn full_and_none(rt: HostRuntime) -> Result<(), Fail> {
    let heap = rt.alloc();
    let task = hanoi(heap).ok_or("no task")?;
    let start = task.start_state();
    let mut queue: HeapQueue<Pair> = <HeapQueue<_> as Queue>::new(heap, 8)?;
    let mut rows = [Row::unused(); 5];
    let mut steps = [99u16; 5];
    let outcome = search(&task, &start, &mut Blind, &mut queue, &mut rows, &mut steps);
    let full = matches!(outcome, Ok(Outcome::RowsFull { used: 5 }));
    assert!(rt; full && queue.is_empty() && steps[0] == 99);
    let task = blocked(heap).ok_or("no task")?;
    let start = task.start_state();
    let outcome = search(&task, &start, &mut Blind, &mut queue, &mut rows, &mut steps);
    let none = matches!(outcome, Ok(Outcome::NoPlan { used: 2 }));
    assert!(rt; none && rows[0].opened && rows[1].opened && steps[0] == 99);
    Ok(())
}

#[test]
fn goal_at_once(rt: HostRuntime) -> Result<(), Fail> {
    let heap = rt.alloc();
    let task = blocked(heap).ok_or("no task")?;
    let start = State::of(&[2]);
    let mut queue: TableQueue<Pair> = <TableQueue<_> as Queue>::new(heap, 1)?;
    let mut rows = [Row::unused(); 1];
    let mut steps = [99u16; 1];
    let outcome = search(&task, &start, &mut Blind, &mut queue, &mut rows, &mut steps);
    let plan = matches!(outcome, Ok(Outcome::Plan { length: 0, used: 1 }));
    assert!(rt; plan && steps[0] == 99);
    Ok(())
}

// The long way to fact 3 is found first; the short one, found later, replaces it, and the rows behind it are opened again.
#[test]
fn opens_again(rt: HostRuntime) -> Result<(), Fail> {
    let heap = rt.alloc();
    let task = detour(heap).ok_or("no task")?;
    let start = task.start_state();
    let mut queue: HeapQueue<Pair> = <HeapQueue<_> as Queue>::new(heap, 6)?;
    let mut rows = [Row::unused(); 6];
    let mut steps = [99u16; 6];
    let outcome = search(
        &task,
        &start,
        &mut Misleading,
        &mut queue,
        &mut rows,
        &mut steps,
    );
    let plan = matches!(outcome, Ok(Outcome::Plan { length: 3, used: 6 }));
    assert!(rt; plan);
    assert!(rt; steps[0] == 0 && steps[1] == 1 && steps[2] == 5 && steps[3] == 99);
    Ok(())
}

// The number of the refusal, if the search was refused.
fn refused<E: Estimator, Q: Queue<Key = Pair>>(
    task: &Task,
    start: &State,
    est: &mut E,
    queue: &mut Q,
    rows: &mut [Row],
    steps: &mut [u16],
) -> Option<u8> {
    search(task, start, est, queue, rows, steps)
        .err()
        .map(SearchRefusal::number)
}

// With everything unfit the smallest number is given; then, one by one, the next.
#[test]
fn refusals_in_order(rt: HostRuntime) -> Result<(), Fail> {
    let heap = rt.alloc();
    let task = blocked(heap).ok_or("no task")?;
    let start = task.start_state();
    let beyond = State::of(&[3]);
    let mut queue: TableQueue<Pair> = <TableQueue<_> as Queue>::new(heap, 3)?;
    let mut wide: TableQueue<Pair> = <TableQueue<_> as Queue>::new(heap, 4)?;
    let mut rows = [Row::unused(); 4];
    let mut steps = [99u16; 3];
    let mut more = [99u16; 4];
    assert_eq!(rt;
        refused(
            &task, &beyond, &mut Unfit, &mut queue, &mut rows, &mut steps
        ),
        Some(8)
    );
    assert_eq!(rt;
        refused(&task, &start, &mut Unfit, &mut queue, &mut rows, &mut steps),
        Some(11)
    );
    assert_eq!(rt;
        refused(&task, &start, &mut Unfit, &mut wide, &mut rows, &mut steps),
        Some(15)
    );
    assert_eq!(rt;
        refused(&task, &start, &mut Unfit, &mut wide, &mut rows, &mut more),
        Some(16)
    );
    assert_eq!(rt;
        refused(&task, &start, &mut Blind, &mut wide, &mut rows, &mut more),
        None
    );
    Ok(())
}

#[test]
fn no_rows(rt: HostRuntime) -> Result<(), Fail> {
    let heap = rt.alloc();
    let task = blocked(heap).ok_or("no task")?;
    let start = task.start_state();
    let mut queue: TableQueue<Pair> = <TableQueue<_> as Queue>::new(heap, 3)?;
    let mut rows = [Row::unused(); 0];
    let mut steps = [99u16; 3];
    assert_eq!(rt;
        refused(&task, &start, &mut Blind, &mut queue, &mut rows, &mut steps),
        Some(15)
    );
    Ok(())
}

// A queue that holds something is refused, and keeps it.
#[test]
fn queue_held(rt: HostRuntime) -> Result<(), Fail> {
    let heap = rt.alloc();
    let task = blocked(heap).ok_or("no task")?;
    let start = task.start_state();
    let mut queue: HeapQueue<Pair> = <HeapQueue<_> as Queue>::new(heap, 3)?;
    let _ = queue.put(
        2,
        Pair {
            first: 1,
            second: 1,
        },
    );
    let mut rows = [Row::unused(); 3];
    let mut steps = [99u16; 3];
    assert_eq!(rt;
        refused(&task, &start, &mut Blind, &mut queue, &mut rows, &mut steps),
        Some(11)
    );
    assert!(rt; queue.holds(2) && !rows[0].opened);
    Ok(())
}
