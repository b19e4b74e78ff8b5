// Works a list of calls on a session: the task text comes on standard input, the calls as arguments.
// Tells each answer, and each row of each docket, in words.
#![tactic(auto)]

mod arguments;
mod words;

use anyhow::anyhow;
use arguments::asked_for;
use choices::choice::RuleChoice;
use figure::figure::Figure;
use queue::queue::Queue;
use queue::table::TableQueue;
use rules::additive::AdditiveRule;
use rules::largest::MaxRule;
use rules::rule::CostRule;
use session::call::Call;
use session::session::Session;
use std::env;
use strips::task::Task;
use wording::input::task_on_input;
use words::tell;

const HELP: &str = "figures: keeps the figures of a task up to date as facts come and go.

usage: figures [--max] CALL.. < TASK
calls: enter FACT, strike FACT, settle, figure ITEM, goal

Reads a task text from standard input, opens a session by the additive rule, or
with --max by the max rule, and works the calls in turn. Items are the facts,
then the actions. Tells each answer: whether the state changed, the rows that a
settle wrote, a figure, or the number of a refusal. A figure is a number, or
none for what is out of reach. A refused text is told with the refusal's
number, the line, the place and what is wrong. The status is 1 only where the
job could not be done.";

// Works the calls over a table, which gives rows of equal figures in the order of their items. The table is made here, so that an error
// tells which wanted memory, it or the session.
fn work<R: CostRule + Drop>(
    rt: &HostRuntime,
    task: Task,
    rule: R,
    calls: &[Call],
) -> anyhow::Result<()> {
    let facts = usize::from(task.facts());
    let queue: TableQueue<Figure> = TableQueue::new(rt.alloc(), task.item_count())?;
    let Ok((_, answers)) = Session::open_and_work(rt.alloc(), task, rule, queue, calls) else {
        return Err(anyhow!("no memory for a session"));
    };
    for (call, answer) in calls.iter().zip(&answers) {
        tell(rt, facts, *call, answer)?;
    }
    Ok(())
}

fn run(rt: &HostRuntime) -> anyhow::Result<()> {
    if env::args(rt)?
        .nth(1)
        .is_none_or(|word| word.as_str() == "--help")
    {
        return Ok(println!(rt; "{HELP}")?);
    }
    let asked = asked_for(rt)?;
    match task_on_input(rt)? {
        // A match, since each rule is another type.
        Ok(task) => match asked.rule {
            RuleChoice::Additive => work(rt, task, AdditiveRule, &asked.calls),
            RuleChoice::Max => work(rt, task, MaxRule, &asked.calls),
        },
        Err(fault) => Ok(println!(rt; "{fault}")?),
    }
}

fn main(rt: HostRuntime) -> anyhow::Result<()> {
    run(&rt)
}
