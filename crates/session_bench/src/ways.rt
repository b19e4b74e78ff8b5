// The ways to get the figures after a change.
use crate::flips::Flips;
use anyhow::anyhow;
use figure::figure::Figure;
use heap::heap::HeapQueue;
use queue::queue::Queue;
use rules::rule::CostRule;
use session::session::Session;
use settling::row::DocketRow;
use solve::goal::goal_figure;
use solve::table::solve;
use std::str::FromStr;
use std::time::{Duration, Instant};
use strips::state::State;
use strips::task::Task;

#[derive(Clone, Copy)]
pub enum Way {
    Kept,
    Fresh,
    Solve,
}

impl FromStr for Way {
    type Err = anyhow::Error;

    fn from_str(word: &str) -> anyhow::Result<Way> {
        match word {
            "kept" => Ok(Way::Kept),
            "fresh" => Ok(Way::Fresh),
            "solve" => Ok(Way::Solve),
            _ => Err(anyhow!("the ways are kept, fresh and solve")),
        }
    }
}

// How long it took, how many rows were written, and a sum over the goal figures.
#[derive(Clone, Copy)]
pub struct Tally {
    pub took: Duration,
    pub rows: usize,
    pub sum: u32,
}

type Held<R> = Session<R, HeapQueue<Figure>>;

fn mixed(sum: u32, goal: Figure) -> u32 {
    sum.wrapping_mul(31)
        .wrapping_add(goal.number().unwrap_or(u32::MAX))
}

fn opened<R: CostRule + Drop>(rt: &HostRuntime, task: &Task, rule: R) -> anyhow::Result<Held<R>> {
    let own = task.twin(rt.alloc())?;
    let queue: HeapQueue<Figure> = HeapQueue::new(rt.alloc(), own.item_count())?;
    Session::open(rt.alloc(), own, rule, queue).map_err(|_| anyhow!("no memory for a session"))
}

// Makes a fact stand if it does not, and else fall.
fn flip<R: CostRule>(session: &mut Held<R>, fact: u8) {
    if session.stands(fact) {
        let _ = session.strike(fact);
    } else {
        let _ = session.enter(fact);
    }
}

fn flip_in(state: &mut State, fact: u8) {
    if !state.insert(fact) {
        let _ = state.remove(fact);
    }
}

// Settles, and adds the rows and the goal figure.
fn settle<R: CostRule>(session: &mut Held<R>, docket: &mut [DocketRow], tally: &mut Tally) {
    if let Ok(rows) = session.settle(docket) {
        tally.rows = tally.rows.wrapping_add(rows);
    }
    if let Ok(goal) = session.goal_figure() {
        tally.sum = mixed(tally.sum, goal);
    }
}

// One session, settled after each change.
fn keep<R: CostRule>(
    session: &mut Held<R>,
    docket: &mut [DocketRow],
    changes: u32,
    mut flips: Flips,
    tally: &mut Tally,
) {
    for _ in 0..changes {
        let fact = flips.next(session.task());
        flip(session, fact);
        settle(session, docket, tally);
    }
}

// Makes the facts of the session stand as in the state.
fn follow<R: CostRule>(session: &mut Held<R>, state: &State) {
    for fact in 0..session.task().facts() {
        if session.stands(fact) != state.stands(fact) {
            flip(session, fact);
        }
    }
}

// A session for each change, opened and settled on the facts that stand then.
fn open_each<R: CostRule + Copy + Drop>(
    rt: &HostRuntime,
    task: &Task,
    rule: R,
    docket: &mut [DocketRow],
    changes: u32,
    mut flips: Flips,
    tally: &mut Tally,
) -> anyhow::Result<()> {
    let mut state = task.start_state();
    for _ in 0..changes {
        flip_in(&mut state, flips.next(task));
        let mut session = opened(rt, task, rule)?;
        follow(&mut session, &state);
        settle(&mut session, docket, tally);
    }
    Ok(())
}

// The table from nothing for each change.
fn solve_each<R: CostRule>(
    rt: &HostRuntime,
    task: &Task,
    rule: &R,
    changes: u32,
    mut flips: Flips,
    tally: &mut Tally,
) -> anyhow::Result<()> {
    let mut state = task.start_state();
    for _ in 0..changes {
        flip_in(&mut state, flips.next(task));
        let figures = solve(rt.alloc(), task, &state, rule)?;
        tally.sum = mixed(tally.sum, goal_figure(task, rule, &figures));
    }
    Ok(())
}

// Only the changes are timed: a session that is kept is opened and settled before.
pub fn measure<R: CostRule + Copy + Drop>(
    rt: &HostRuntime,
    task: &Task,
    rule: R,
    way: Way,
    changes: u32,
    flips: Flips,
) -> anyhow::Result<Tally> {
    let rows = 2 * (usize::from(task.facts()) + task.action_count());
    let mut docket = vec![in rt.alloc(); DocketRow::default(); rows]?;
    let mut session = opened(rt, task, rule)?;
    let _ = session.settle(&mut docket);
    let start = Instant::now(rt)?;
    let mut tally = Tally {
        took: start.elapsed(rt)?,
        rows: 0,
        sum: 0,
    };
    // A match, since each way takes what the others do without.
    match way {
        Way::Kept => keep(&mut session, &mut docket, changes, flips, &mut tally),
        Way::Fresh => open_each(rt, task, rule, &mut docket, changes, flips, &mut tally)?,
        Way::Solve => solve_each(rt, task, &rule, changes, flips, &mut tally)?,
    }
    tally.took = start.elapsed(rt)?;
    Ok(tally)
}
