// Reads the task text on standard input many times and tells how long that took: text_bench TIMES.
// With no argument the text is read once, and the size of its task is told.
#![tactic(auto)]

use anyhow::anyhow;
use std::env;
use std::io::Read;
use std::time::Instant;
use strips::task::Task;
use tasktext::text::read_task;

fn read_once(rt: &HostRuntime, text: &[u8]) -> anyhow::Result<Task> {
    read_task(rt.alloc(), text).map_err(|_| anyhow!("the text is refused"))
}

fn read_often(rt: &HostRuntime, text: &[u8], times: u32) -> anyhow::Result<usize> {
    let mut items = 0usize;
    for _ in 0..times {
        items = items.wrapping_add(read_once(rt, text)?.item_count());
    }
    Ok(items)
}

fn run(rt: &HostRuntime) -> anyhow::Result<()> {
    let mut text = Vec::new(rt.alloc());
    rt.stdin().read_to_end(&mut text)?;
    let mut args = env::args(rt)?.skip(1);
    let Some(word) = args.next() else {
        let task = read_once(rt, &text)?;
        let facts = task.facts();
        let actions = task.action_count();
        return Ok(println!(rt; "{facts} facts, {actions} actions")?);
    };
    let times = word.as_str().parse::<u32>()?;
    let start = Instant::now(rt)?;
    let items = read_often(rt, &text, times)?;
    let took = start.elapsed(rt)?.as_nanos();
    Ok(println!(rt; "{took} {items}")?)
}

fn main(rt: HostRuntime) -> anyhow::Result<()> {
    run(&rt)
}
