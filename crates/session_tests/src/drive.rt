// Pseudo-random calls on pseudo-random tasks, every settle compared with the plain table.
use crate::made::*;
use crate::plain::*;
use figure::figure::Figure;
use heap::heap::HeapQueue;
use queue::queue::Queue;
use queue::table::TableQueue;
use rules::additive::AdditiveRule;
use rules::largest::MaxRule;
use rules::rule::CostRule;
use session::session::Session;
use settling::row::DocketRow;
use std::alloc::Global;
use std::process::Abort;
use std::test::Fail;

// The session tells exactly the table, and half the result over the goal.
fn compare<R: CostRule, Q: Queue<Key = Figure>, J: Fn(Cell, Cell) -> Cell>(
    rt: &impl Abort,
    session: &Session<R, Q>,
    table: &[Cell],
    join: &J,
) -> Result<(), Fail>
    requires { J.IsAlwaysCallable join.now }
{
    for (item, cell) in table.iter().enumerate() {
        let Ok(figure) = session.figure(item) else {
            return Err(Fail::new("a figure that should be told"));
        };
        assert!(rt; figure.number() == *cell);
    }
    let goal = over(table, session.task().goal(), join).map(|number| number / 2);
    let Ok(figure) = session.goal_figure() else {
        return Err(Fail::new("a goal figure that should be told"));
    };
    assert!(rt; figure.number() == goal);
    Ok(())
}

// Applied one by one to the earlier figures the rows give the new ones.
fn apply(rt: &impl Abort, held: &mut [Cell], rows: &[DocketRow]) -> Result<(), Fail> {
    for row in rows {
        let Some(cell) = held.get_mut(row.item) else {
            return Err(Fail::new("a row of no item"));
        };
        assert!(rt; *cell == row.before.number());
        assert!(rt; row.before.number() != row.after.number());
        *cell = row.after.number();
    }
    Ok(())
}

// The figures join over a list of facts as the rule makes one of them.
fn drive<Q: Queue<Key = Figure> + Drop, R: CostRule + Drop, J: Fn(Cell, Cell) -> Cell, A: Abort>(
    rt: &A,
    heap: Global,
    capacity: usize,
    rule: R,
    join: &J,
    seed: u32,
) -> Result<(), Fail>
    requires { J.IsAlwaysCallable join.now }
{
    let mut random = Random(seed);
    let task = random_task(heap, seed)?;
    let mut held: Vec<Cell> = vec![in heap; None; task.item_count()]?;
    let mut docket = vec![in heap; DocketRow::default(); 80]?;
    let Ok(mut session) = Session::open(heap, task, rule, Q::new(heap, capacity)?) else {
        return Err(Fail::new("a session that should open"));
    };
    for _ in 0..60 {
        let fact = random.byte() % 17;
        let known = fact < 16;
        let told = if random.byte() < 128 {
            session.enter(fact)
        } else {
            session.strike(fact)
        };
        assert!(rt; told.is_ok() == known);
        if random.byte() < 150 {
            let Ok(n) = session.settle(&mut docket) else {
                return Err(Fail::new("a settle that should be accepted"));
            };
            let Some(rows) = docket.get(..n) else {
                return Err(Fail::new("more rows than the docket has"));
            };
            apply(rt, &mut held, rows)?;
            let table = table_of(heap, session.task(), &session.state(), join)?;
            compare(rt, &session, &table, join)?;
            assert!(rt; held == table);
        }
    }
    Ok(())
}

fn drive_all(rt: &impl Abort, heap: Global, seed: u32) -> Result<(), Fail> {
    drive::<TableQueue<Figure>, _, _, _>(rt, heap, 40, AdditiveRule, &plus, seed)?;
    drive::<TableQueue<Figure>, _, _, _>(rt, heap, 40, MaxRule, &larger, seed)?;
    drive::<HeapQueue<Figure>, _, _, _>(rt, heap, 40, AdditiveRule, &plus, seed)?;
    drive::<HeapQueue<Figure>, _, _, _>(rt, heap, 64, MaxRule, &larger, seed)
}

#[test]
fn random_tasks(rt: HostRuntime) -> Result<(), Fail> {
    for seed in 1..9 {
        drive_all(&rt, rt.alloc(), seed)?;
    }
    Ok(())
}
