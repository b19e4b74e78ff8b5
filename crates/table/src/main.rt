// Reads a task text from standard input and prints its table of figures under both cost rules.
#![tactic(auto)]

mod column;
mod failure;

use column::column_of;
use failure::Failure;
use rules::additive::AdditiveRule;
use rules::largest::MaxRule;
use std::env;
use std::process::ExitCode;
use strips::task::Task;
use wording::input::task_on_input;
use wording::item::Item;

const HELP: &str = "table: prints the table of figures of a task.

usage: table < TASK

Reads a task text from standard input. Prints a line for each fact and each
action, with its figure by the additive rule and by the max rule where the
task's start facts stand, and then both goal figures. A figure is a number, or
none for what is out of reach. A refused text is told with the refusal's
number, the line, the place and what is wrong. The status is 1 only where the
job could not be done.";

fn print_table(rt: &HostRuntime, task: &Task) -> Result<(), Failure> {
    let sums = column_of(rt.alloc(), task, &AdditiveRule)?;
    let largest = column_of(rt.alloc(), task, &MaxRule)?;
    let facts = task.facts();
    let actions = task.action_count();
    println!(rt; "figures of {facts} facts and {actions} actions")?;
    for (number, (additive, max)) in sums.figures.iter().zip(&largest.figures).enumerate() {
        let item = Item {
            facts: usize::from(facts),
            number,
        };
        println!(rt; "{item}: additive {additive}, max {max}")?;
    }
    let additive = sums.goal;
    let max = largest.goal;
    println!(rt; "goal figure: additive {additive}, max {max}")?;
    Ok(())
}

// Whether help is asked for; no other argument is known.
fn wants_help(rt: &HostRuntime) -> Result<bool, Failure> {
    let mut args = env::args(rt)?.skip(1);
    let Some(first) = args.next() else {
        return Ok(false);
    };
    if first.as_str() != "--help" || args.next().is_some() {
        return Err(Failure::Arguments);
    }
    Ok(true)
}

fn run(rt: &HostRuntime) -> Result<(), Failure> {
    if wants_help(rt)? {
        return Ok(println!(rt; "{HELP}")?);
    }
    match task_on_input(rt)? {
        Ok(task) => print_table(rt, &task),
        Err(fault) => Ok(println!(rt; "{fault}")?),
    }
}

fn main(rt: HostRuntime) -> ExitCode {
    match run(&rt) {
        Ok(()) => ExitCode::SUCCESS,
        Err(failure) => {
            let _ = eprintln!(rt; "table: {failure}");
            ExitCode::FAILURE
        }
    }
}
