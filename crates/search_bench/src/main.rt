// Searches a plan of the task on standard input: search_bench ROWS ESTIMATOR.
// ESTIMATOR is blind, session, or keeping (over the larger of a session and blind).
// Prints nanoseconds, how the search ended, the plan's length and the rows used.
// With no arguments the three estimators search with 1,024 rows and are compared.
#![tactic(auto)]

use anyhow::anyhow;
use estimator::blind::Blind;
use estimator::estimator::Estimator;
use estimator::keeping::Keeping;
use estimator::larger::Larger;
use figure::figure::Figure;
use heap::heap::HeapQueue;
use queue::key::Pair;
use queue::queue::Queue;
use rows::row::Row;
use rules::largest::MaxRule;
use search::search::search;
use search_law::outcome::Outcome;
use session::session::Session;
use session_estimator::session_estimator::SessionEstimator;
use std::env;
use std::io::Read;
use std::time::{Duration, Instant};
use strips::task::Task;
use tasktext::text::read_task;

#[derive(Clone, Copy)]
struct Lap {
    took: Duration,
    outcome: Outcome,
}

// Only the search is timed.
fn timed<E: Estimator>(
    rt: &HostRuntime,
    task: &Task,
    est: &mut E,
    count: usize,
) -> anyhow::Result<Lap> {
    let mut queue: HeapQueue<Pair> = HeapQueue::new(rt.alloc(), count)?;
    let mut rows = Vec::new(rt.alloc());
    rows.resize(count, Row::unused())?;
    let mut steps = Vec::new(rt.alloc());
    steps.resize(count, 0u16)?;
    let start_state = task.start_state();
    let start = Instant::now(rt)?;
    match search(task, &start_state, est, &mut queue, &mut rows, &mut steps) {
        Ok(outcome) => Ok(Lap {
            took: start.elapsed(rt)?,
            outcome,
        }),
        Err(_) => Err(anyhow!("the search is refused")),
    }
}

fn session_estimator(
    rt: &HostRuntime,
    task: &Task,
) -> anyhow::Result<SessionEstimator<HeapQueue<Figure>>> {
    let own = task.twin(rt.alloc())?;
    let queue: HeapQueue<Figure> = HeapQueue::new(rt.alloc(), own.item_count())?;
    let Ok(session) = Session::open(rt.alloc(), own, MaxRule, queue) else {
        return Err(anyhow!("no memory for a session"));
    };
    match SessionEstimator::new(rt.alloc(), session) {
        Ok(est) => Ok(est),
        Err(_) => Err(anyhow!("no memory for an estimator")),
    }
}

fn searched(rt: &HostRuntime, task: &Task, estimator: &str, count: usize) -> anyhow::Result<Lap> {
    // A match, since each estimator is another type.
    match estimator {
        "blind" => timed(rt, task, &mut Blind, count),
        "session" => timed(rt, task, &mut session_estimator(rt, task)?, count),
        "keeping" => {
            let mut est = Keeping::new(Larger::new(session_estimator(rt, task)?, Blind));
            timed(rt, task, &mut est, count)
        }
        _ => Err(anyhow!("the estimators are blind, session and keeping")),
    }
}

fn tell(rt: &HostRuntime, took: u128, outcome: Outcome) -> anyhow::Result<()> {
    match outcome {
        Outcome::Plan { length, used } => Ok(println!(rt; "{took} plan {length} {used}")?),
        Outcome::NoPlan { used } => Ok(println!(rt; "{took} none 0 {used}")?),
        Outcome::RowsFull { used } => Ok(println!(rt; "{took} full 0 {used}")?),
    }
}

fn length(lap: Lap) -> usize {
    match lap.outcome {
        Outcome::Plan { length, used: _ } => length,
        _ => 0,
    }
}

fn compared(rt: &HostRuntime, task: &Task) -> anyhow::Result<()> {
    let blind = length(searched(rt, task, "blind", 1024)?);
    let session = length(searched(rt, task, "session", 1024)?);
    let keeping = length(searched(rt, task, "keeping", 1024)?);
    Ok(println!(rt; "steps of a shortest plan: {blind}, {session} and {keeping}")?)
}

fn run(rt: &HostRuntime) -> anyhow::Result<()> {
    let mut text = Vec::new(rt.alloc());
    rt.stdin().read_to_end(&mut text)?;
    let Ok(task) = read_task(rt.alloc(), text.as_slice()) else {
        return Err(anyhow!("the text is refused"));
    };
    let mut args = env::args(rt)?.skip(1);
    let Some(rows) = args.next() else {
        return compared(rt, &task);
    };
    let Some(estimator) = args.next() else {
        return Err(anyhow!("search_bench ROWS ESTIMATOR"));
    };
    let lap = searched(
        rt,
        &task,
        estimator.as_str(),
        rows.as_str().parse::<usize>()?,
    )?;
    tell(rt, lap.took.as_nanos(), lap.outcome)
}

fn main(rt: HostRuntime) -> anyhow::Result<()> {
    run(&rt)
}
