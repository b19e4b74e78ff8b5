// Plans the tasks of files and rehearses the plans, to be held against lengths that are known from elsewhere.
#![tactic(auto)]

use anyhow::anyhow;
use planning::planned::Planned;
use planning::planning::plan;
use rehearsal::rehearse::rehearse;
use rehearsal::verdict::Verdict;
use search_law::outcome::Outcome;
use std::{env, fs};
use strips::task::Task;
use wording::input::task_of;

const HELP: &str = "known_plans: plans the tasks of files and rehearses the plans.

usage: known_plans FILE..

Each file has a task text. Prints a line for each file: its name, the additive
and the max goal figure of the start, and then the number of steps of a
shortest plan and whether it rehearses as a plan, or that there is no plan, or
that the 1,024 rows of the search are full. A refused text is told with the
number, line and place of its first fault.";

// Whether the steps of the answer are a plan, taken one by one.
fn rehearses(task: &Task, planned: &Planned) -> bool {
    let mut live = task.start_state();
    matches!(rehearse(task, &mut live, &planned.steps), Ok(Verdict::Plan))
}

fn tell(rt: &HostRuntime, name: &str, task: &Task) -> anyhow::Result<()> {
    let Ok(planned) = plan(rt.alloc(), task) else {
        return Err(anyhow!("no memory to plan"));
    };
    let additive = planned.additive;
    let max = planned.max;
    print!(rt; "{name}: goal figure additive {additive}, max {max}; ")?;
    match planned.outcome {
        Outcome::Plan { length, used: _ } => {
            let so = if rehearses(task, &planned) {
                "rehearses"
            } else {
                "does not rehearse"
            };
            Ok(println!(rt; "a shortest plan has {length} steps, and {so} as a plan")?)
        }
        Outcome::NoPlan { used: _ } => Ok(println!(rt; "there is no plan")?),
        Outcome::RowsFull { used } => Ok(println!(rt;
            "all {used} rows are full before a plan was found"
        )?),
    }
}

fn work(rt: &HostRuntime, name: &str) -> anyhow::Result<()> {
    let Ok(text) = fs::read(rt, name) else {
        return Err(anyhow!("{name} cannot be read"));
    };
    match task_of(rt.alloc(), &text)? {
        Ok(task) => tell(rt, name, &task),
        Err(fault) => Ok(println!(rt; "{name}: {fault}")?),
    }
}

fn run(rt: &HostRuntime) -> anyhow::Result<()> {
    let mut some = false;
    for name in env::args(rt)?.skip(1) {
        some = true;
        if name.as_str() == "--help" {
            return Ok(println!(rt; "{HELP}")?);
        }
        work(rt, name.as_str())?;
    }
    if some {
        Ok(())
    } else {
        Err(anyhow!("name the files with task texts; --help tells more"))
    }
}

fn main(rt: HostRuntime) -> anyhow::Result<()> {
    run(&rt)
}
