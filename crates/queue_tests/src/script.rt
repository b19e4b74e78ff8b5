// A fixed script of calls, and the comparison after each.
use crate::model::{count, is_smallest, key_of, write};
use queue::drain::drain;
use queue::key::Key;
use queue::queue::Queue;
use std::alloc::Global;
use std::process::Abort;
use std::test::Fail;

// A fixed pseudo-random sequence.
#[derive(Drop)]
struct Random {
    state: u32,
}

impl Random {
    fn below(&mut self, bound: usize) -> usize {
        self.state = self
            .state
            .wrapping_mul(1_664_525)
            .wrapping_add(1_013_904_223);
        if bound == 0 {
            0
        } else {
            (self.state >> 8) as usize % bound
        }
    }
}

fn put<Q: Queue>(
    rt: &impl Abort,
    queue: &mut Q,
    list: &mut [Option<Q::Key>],
    item: usize,
    key: Q::Key,
) {
    match queue.put(item, key) {
        Ok(()) => {
            assert!(rt; item < list.len());
            write(list, item, Some(key));
        }
        Err(refusal) => {
            assert!(rt; item >= list.len());
            assert!(rt; refusal.number() == 8);
        }
    }
}

fn take<Q: Queue>(rt: &impl Abort, queue: &mut Q, list: &mut [Option<Q::Key>]) {
    match queue.take() {
        Some((item, key)) => {
            assert!(rt; is_smallest(list, item, key));
            write(list, item, None);
        }
        None => {
            assert!(rt; count(list) == 0);
        }
    }
}

fn drop_item<Q: Queue>(rt: &impl Abort, queue: &mut Q, list: &mut [Option<Q::Key>], item: usize) {
    assert!(rt; queue.drop_item(item) == key_of(list, item).is_some());
    write(list, item, None);
}

// The questions, also of two items beyond the capacity.
fn compare<Q: Queue>(rt: &impl Abort, queue: &Q, list: &[Option<Q::Key>]) {
    assert!(rt; queue.capacity() == list.len());
    assert!(rt; queue.is_empty() == (count(list) == 0));
    for (item, cell) in list.iter().enumerate() {
        assert!(rt; queue.holds(item) == cell.is_some());
    }
    assert!(rt; !queue.holds(list.len()));
    assert!(rt; !queue.holds(usize::MAX));
}

// Takes all that is left, in the order of the keys.
fn finish<Q: Queue>(
    rt: &impl Abort,
    queue: &mut Q,
    list: &mut [Option<Q::Key>],
    heap: Global,
) -> Result<(), Fail> {
    let all = drain(queue, heap)?;
    assert!(rt; all.len() == count(list));
    for (item, key) in &all {
        assert!(rt; is_smallest(list, *item, *key));
        write(list, *item, None);
    }
    compare(rt, queue, list);
    Ok(())
}

// Works the calls on the queue and on the list, which holds nothing and is as long as the capacity.
pub fn work<Q: Queue>(
    rt: &impl Abort,
    queue: &mut Q,
    list: &mut [Option<Q::Key>],
    keys: &[Q::Key],
    calls: u32,
    heap: Global,
) -> Result<(), Fail> {
    let mut random = Random { state: calls };
    compare(rt, queue, list);
    for _ in 0..calls {
        let item = random.below(list.len().saturating_add(2));
        let chosen = random.below(keys.len());
        match random.below(8) {
            0 | 1 => take(rt, queue, list),
            2 => drop_item(rt, queue, list, item),
            _ => {
                if let Some(key) = keys.get(chosen) {
                    put(rt, queue, list, item, *key);
                }
            }
        }
        compare(rt, queue, list);
    }
    finish(rt, queue, list, heap)
}
