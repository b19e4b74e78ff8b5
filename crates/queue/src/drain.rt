// All pairs of a queue in the order of their keys, over any queue.
ghost use Rattle.std.specs.Prelude.{◌≡◌, ◌≤◌, [], length, IfOk, vec_len, vec_capacity, MatchResult};
ghost use Rattle.queue.specs.Queues.{Drained, Ascends};

use crate::queue::Queue;
use std::alloc::{AllocError, Global};

// Takes until nothing is held, into a list that has room for all.
fn take_all<Q: Queue>(queue: &mut Q, all: &mut Vec<(usize, Q::Key)>)
    requires empty { (all.old.items ≡ []) × (vec_len all.old ≡ 0) }
    requires room { length (Q.Queue.pairs queue.old) ≤ vec_capacity all.old }
    ensures keeps { Q.Queue.sound queue.old → Q.Queue.sound queue.new }
    ensures after { Drained (Q.Queue.pairs queue.old) all.new.items (Q.Queue.pairs queue.new) }
    ensures order { Q.Queue.sound queue.old → Ascends Q.Key.Key.leq all.new.items }
{
    while let Some(pair) = queue.take() {
        all.push_reserved(pair);
    }
}

// Takes all. Memory is got before the first take, so where it is wanting the queue is as it was.
pub fn drain<Q: Queue>(queue: &mut Q, heap: Global) -> Result<Vec<(usize, Q::Key)>, AllocError>
    ensures keeps { Q.Queue.sound queue.old → Q.Queue.sound queue.new }
    ensures after { MatchResult result (λ v. Drained (Q.Queue.pairs queue.old) v.items (Q.Queue.pairs queue.new)) (λ _. queue.new ≡ queue.old) }
    ensures order { Q.Queue.sound queue.old → IfOk result (λ v. Ascends Q.Key.Key.leq v.items) }
{
    let mut all = Vec::with_capacity(heap, queue.capacity())?;
    take_all(queue, &mut all);
    Ok(all)
}
