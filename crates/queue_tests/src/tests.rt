// Scripts over both queues and both kinds of key.
use crate::script::work;
use figure::figure::Figure;
use heap::heap::HeapQueue;
use queue::key::Pair;
use queue::queue::Queue;
use queue::table::TableQueue;
use std::test::Fail;

const CALLS: u32 = 3000;

const fn pair(first: u32, second: u32) -> Pair {
    Pair { first, second }
}

#[test]
fn figures(rt: HostRuntime) -> Result<(), Fail> {
    let keys = [
        Figure::of(7),
        Figure::None,
        Figure::of(0),
        Figure::of(2_000_000),
        Figure::of(7),
        Figure::of(8),
    ];
    let heap = rt.alloc();
    for capacity in [0, 1, 2, 7, 30] {
        let mut table: TableQueue<Figure> = TableQueue::new(heap, capacity)?;
        let mut binary: HeapQueue<Figure> = HeapQueue::new(heap, capacity)?;
        let mut list: Vec<Option<Figure>> = vec![in heap; None; capacity]?;
        work(&rt, &mut table, &mut list, &keys, CALLS, heap)?;
        work(&rt, &mut binary, &mut list, &keys, CALLS, heap)?;
    }
    Ok(())
}

#[test]
fn pairs(rt: HostRuntime) -> Result<(), Fail> {
    let keys = [
        pair(5, 0),
        pair(0, 5),
        pair(0, 4),
        pair(5, u32::MAX),
        pair(u32::MAX, 0),
        pair(5, 1),
        pair(0, 5),
    ];
    let heap = rt.alloc();
    for capacity in [0, 1, 3, 8, 31] {
        let mut table: TableQueue<Pair> = TableQueue::new(heap, capacity)?;
        let mut binary: HeapQueue<Pair> = HeapQueue::new(heap, capacity)?;
        let mut list: Vec<Option<Pair>> = vec![in heap; None; capacity]?;
        work(&rt, &mut table, &mut list, &keys, CALLS, heap)?;
        work(&rt, &mut binary, &mut list, &keys, CALLS, heap)?;
    }
    Ok(())
}
