// Reads a task text from standard input and searches a shortest plan.
#![tactic(auto)]

mod hex;
mod words;

use anyhow::anyhow;
use hex::{FaultInHex, InHex};
use planning::planning::plan;
use std::env;
use strips::task::Task;
use textfault::fault::LoadFault;
use wording::input::task_on_input;
use words::InWords;

const HELP: &str = "plan: searches a shortest plan of a task.

usage: plan [--words] < TASK

Reads a task text from standard input and searches with 1,024 rows. Prints in
hexadecimal: line one is 11, the additive and the max goal figure (4 bytes
each, none ffffffff); line two is 12, the plan's length and its actions (2
bytes each), or 13 where there is no plan, or 14 where the rows are full. A
refused text gives one line: 15, the refusal's number (1 byte), its line and
its place (2 bytes each). With --words the same is told in words.";

// How an answer is told.
#[derive(Clone, Copy)]
enum Form {
    Hex,
    Words,
}

impl Form {
    fn tell_plan(self, rt: &HostRuntime, task: &Task) -> anyhow::Result<()> {
        let Ok(planned) = plan(rt.alloc(), task) else {
            return Err(anyhow!("no memory to plan"));
        };
        match self {
            Form::Hex => Ok(println!(rt; "{}", InHex(&planned))?),
            Form::Words => Ok(println!(rt; "{}", InWords(&planned))?),
        }
    }

    fn tell_fault(self, rt: &HostRuntime, fault: LoadFault) -> anyhow::Result<()> {
        match self {
            Form::Hex => Ok(println!(rt; "{}", FaultInHex(fault))?),
            Form::Words => Ok(println!(rt; "{fault}")?),
        }
    }
}

// What the arguments ask for.
#[derive(Clone, Copy)]
enum Request {
    Help,
    Plan(Form),
}

fn requested(rt: &HostRuntime) -> anyhow::Result<Request> {
    let mut args = env::args(rt)?.skip(1);
    let Some(first) = args.next() else {
        return Ok(Request::Plan(Form::Hex));
    };
    if args.next().is_some() {
        return Err(anyhow!("at most one argument: --words or --help"));
    }
    match first.as_str() {
        "--words" => Ok(Request::Plan(Form::Words)),
        "--help" => Ok(Request::Help),
        _ => Err(anyhow!(
            "the arguments known are --words and --help; the task text comes from standard input"
        )),
    }
}

fn run(rt: &HostRuntime) -> anyhow::Result<()> {
    let form = match requested(rt)? {
        Request::Help => return Ok(println!(rt; "{HELP}")?),
        Request::Plan(form) => form,
    };
    match task_on_input(rt)? {
        Ok(task) => form.tell_plan(rt, &task),
        Err(fault) => form.tell_fault(rt, fault),
    }
}

fn main(rt: HostRuntime) -> anyhow::Result<()> {
    run(&rt)
}
