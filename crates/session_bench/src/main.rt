// Flips facts of the task on standard input one by one, and gets the figures after each: session_bench WAY RULE CHANGES SEED.
// WAY is kept (one session settles after each change), fresh (a session is opened for each) or solve (the table from nothing);
// RULE is additive or max. Prints nanoseconds, docket rows in all, and a sum over the goal figures.
// With no arguments the three ways make 50 changes and are compared.
#![tactic(auto)]

mod flips;
mod ways;

use anyhow::anyhow;
use flips::Flips;
use rules::additive::AdditiveRule;
use rules::largest::MaxRule;
use rules::rule::CostRule;
use std::env;
use std::io::Read;
use strips::task::Task;
use tasktext::text::read_task;
use ways::{Tally, Way, measure};

fn agree<R: CostRule + Copy + Drop>(
    rt: &HostRuntime,
    task: &Task,
    rule: R,
) -> anyhow::Result<bool> {
    let kept = measure(rt, task, rule, Way::Kept, 50, Flips::new(1))?;
    let fresh = measure(rt, task, rule, Way::Fresh, 50, Flips::new(1))?;
    let solved = measure(rt, task, rule, Way::Solve, 50, Flips::new(1))?;
    Ok(kept.sum == fresh.sum && fresh.sum == solved.sum)
}

fn tell(rt: &HostRuntime, tally: Tally) -> anyhow::Result<()> {
    let took = tally.took.as_nanos();
    let rows = tally.rows;
    let sum = tally.sum;
    Ok(println!(rt; "{took} {rows} {sum}")?)
}

fn asked(rt: &HostRuntime, task: &Task, words: &[String]) -> anyhow::Result<()> {
    let [way, rule, changes, seed] = words else {
        let both = agree(rt, task, AdditiveRule)? && agree(rt, task, MaxRule)?;
        return Ok(println!(rt; "kept, fresh and solved figures agree over 50 changes: {both}")?);
    };
    let way = way.as_str().parse::<Way>()?;
    let changes = changes.as_str().parse::<u32>()?;
    let flips = Flips::new(seed.as_str().parse::<u64>()?);
    // By a test, since each rule is another type.
    if rule.as_str() == "max" {
        tell(rt, measure(rt, task, MaxRule, way, changes, flips)?)
    } else {
        tell(rt, measure(rt, task, AdditiveRule, way, changes, flips)?)
    }
}

fn run(rt: &HostRuntime) -> anyhow::Result<()> {
    let words: Vec<String> = env::args(rt)?.skip(1).collect(rt.alloc())?;
    let mut text = Vec::new(rt.alloc());
    rt.stdin().read_to_end(&mut text)?;
    let task = read_task(rt.alloc(), text.as_slice()).map_err(|_| anyhow!("the text is refused"))?;
    asked(rt, &task, words.as_slice())
}

fn main(rt: HostRuntime) -> anyhow::Result<()> {
    run(&rt)
}
