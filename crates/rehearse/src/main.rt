// Rehearses plans: the task text comes on standard input, the steps as arguments, several lists of them parted by "/".
// Tells each verdict in words, or what is wrong with the text. Either way the question is answered, and the status is 0.
#![tactic(auto)]

use anyhow::anyhow;
use rehearsal::rehearse::rehearse;
use std::{env, mem};
use strips::state::State;
use strips::task::Task;
use wording::input::task_on_input;

const HELP: &str = "rehearse: tries lists of steps out on the start state of a task.

usage: rehearse STEP.. [/ STEP..].. < TASK

Reads a task text from standard input. A step is the number of an action; a /
ends a list, and no steps at all are the empty list. Tells of each list whether
it is a plan, or the first step that fails and its first missing fact, or the
first goal fact that is missing after the last step, with the refusal's number.
A refused text is told with the refusal's number, the line, the place and what
is wrong. The status is 1 only where the job could not be done.";

// The lists of steps that the arguments are: a "/" ends a list.
fn lists_asked(rt: &HostRuntime) -> anyhow::Result<Vec<Vec<u16>>> {
    let mut lists = Vec::new(rt.alloc());
    let mut steps = Vec::new(rt.alloc());
    for word in env::args(rt)?.skip(1) {
        if word.as_str() == "/" {
            lists.push(mem::try_take(&mut steps)?)?;
        } else if let Ok(step) = word.as_str().parse::<u16>() {
            steps.push(step)?;
        } else {
            return Err(anyhow!(
                "a step is a number from 0 to 65535, and / ends a list; --help tells more"
            ));
        }
    }
    lists.push(steps)?;
    Ok(lists)
}

fn try_out(rt: &HostRuntime, task: &Task, live: &mut State, steps: &[u16]) -> anyhow::Result<()> {
    println!(rt; "steps {steps:?}:")?;
    match rehearse(task, live, steps) {
        Ok(verdict) => println!(rt; "  {verdict}")?,
        Err(unknown) => println!(rt; "  {unknown}")?,
    }
    Ok(())
}

fn run(rt: &HostRuntime) -> anyhow::Result<()> {
    if env::args(rt)?
        .nth(1)
        .is_some_and(|word| word.as_str() == "--help")
    {
        return Ok(println!(rt; "{HELP}")?);
    }
    let lists = lists_asked(rt)?;
    match task_on_input(rt)? {
        Ok(task) => {
            let mut live = task.start_state();
            for steps in &lists {
                try_out(rt, &task, &mut live, steps)?;
            }
            Ok(())
        }
        Err(fault) => Ok(println!(rt; "{fault}")?),
    }
}

fn main(rt: HostRuntime) -> anyhow::Result<()> {
    run(&rt)
}
