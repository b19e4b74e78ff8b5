// Times n puts, n re-keys and n takes on one of the queues: queue_bench heap|table N.
// With no arguments both queues work 100 items and are compared.
#![tactic(auto)]

use heap::heap::HeapQueue;
use queue::key::Pair;
use queue::queue::Queue;
use queue::table::TableQueue;
use std::env;
use std::time::{Duration, Instant};

// How long each part took, and a sum over the keys in the order in which they were taken.
#[derive(Clone, Copy)]
struct Laps {
    puts: Duration,
    rekeys: Duration,
    takes: Duration,
    sum: u32,
}

// A fixed scattered key for an item.
fn key(item: u32, round: u32) -> Pair {
    let x = (item.wrapping_mul(2_654_435_761) ^ round).wrapping_mul(2_246_822_519);
    Pair {
        first: x >> 12,
        second: x & 0xfff,
    }
}

fn put_all<Q: Queue<Key = Pair>>(queue: &mut Q, items: u32, round: u32) {
    for item in 0..items {
        let _ = queue.put(item as usize, key(item, round));
    }
}

fn take_all<Q: Queue<Key = Pair>>(queue: &mut Q, items: u32) -> u32 {
    let mut sum = 0u32;
    for _ in 0..items {
        if let Some(pair) = queue.take() {
            let mixed = sum.wrapping_mul(31).wrapping_add(pair.1.first);
            sum = mixed.wrapping_add(pair.1.second);
        }
    }
    sum
}

fn time<Q: Queue<Key = Pair>>(rt: &HostRuntime, queue: &mut Q, items: u32) -> anyhow::Result<Laps> {
    let start = Instant::now(rt)?;
    put_all(queue, items, 0);
    let puts = start.elapsed(rt)?;
    let start = Instant::now(rt)?;
    put_all(queue, items, 0x5bd1_e995);
    let rekeys = start.elapsed(rt)?;
    let start = Instant::now(rt)?;
    let sum = take_all(queue, items);
    let takes = start.elapsed(rt)?;
    Ok(Laps {
        puts,
        rekeys,
        takes,
        sum,
    })
}

// On a queue of its own.
fn time_new<Q: Queue<Key = Pair> + Drop>(rt: &HostRuntime, items: u32) -> anyhow::Result<Laps> {
    let mut queue = Q::new(rt.alloc(), items as usize)?;
    time(rt, &mut queue, items)
}

fn run(rt: &HostRuntime) -> anyhow::Result<()> {
    let mut args = env::args(rt)?.skip(1);
    let Some(kind) = args.next() else {
        let agree = time_new::<HeapQueue<Pair>>(rt, 100)?.sum
            == time_new::<TableQueue<Pair>>(rt, 100)?.sum;
        return Ok(println!(rt; "heap and table agree on 100 items: {agree}")?);
    };
    let items = match args.next() {
        Some(text) => text.as_str().parse::<u32>()?,
        None => 1000,
    };
    // By a test, since each kind of queue is another type.
    let laps = if kind.as_str() == "table" {
        time_new::<TableQueue<Pair>>(rt, items)?
    } else {
        time_new::<HeapQueue<Pair>>(rt, items)?
    };
    let puts = laps.puts.as_nanos();
    let rekeys = laps.rekeys.as_nanos();
    let takes = laps.takes.as_nanos();
    let sum = laps.sum;
    println!(rt; "{puts} {rekeys} {takes} {sum}")?;
    Ok(())
}

fn main(rt: HostRuntime) -> anyhow::Result<()> {
    run(&rt)
}
