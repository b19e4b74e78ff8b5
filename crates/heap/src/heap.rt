// The heap as a queue. All its memory is got when it is made.
ghost use Rattle.std.specs.Prelude.{◌≡◌, ℕ, ◌<◌, true, false, not, length, replicate, is_some, IfOk, Some, None, slice_index, slice_set};
ghost use Rattle.queue.specs.Queues.{held, vacant, Front, Smallest};
ghost use Rattle.heap.specs.Meaning.{pairs_of, InOrder};
ghost use Rattle.std.proofs.Common.{rules, arith};

use crate::slots::exchange;
pub use crate::store::HeapQueue;
use queue::key::Key;
use queue::queue::Queue;
use queue::refusal::QueueRefusal;
use std::alloc::{AllocError, Global};

// The numbers below `count`, in order.
fn numbers(heap: Global, count: usize) -> Result<Vec<usize>, AllocError>
    ensures long { IfOk result (λ v. length v.items ≡ count) }
    ensures own { IfOk result (λ v. (i : ℕ) → i < count → slice_index v.items i ≡ i) }
{
    (0..count).collect(heap)
}

impl<K: Key> HeapQueue<K> {
    // A heap of no items: each stands in the slot of its number.
    fn empty(heap: Global, capacity: usize) -> Result<HeapQueue<K>, AllocError>
        ensures { IfOk result (λ q. (pairs_of q ≡ replicate capacity None) × (q.size ≡ 0)) }
    {
        let keys = vec![in heap; None; capacity]?;
        let slots = numbers(heap, capacity)?;
        let places = numbers(heap, capacity)?;
        Ok(HeapQueue {
            keys,
            slots,
            places,
            size: 0,
        })
    }

    fn contains(&self, item: usize) -> bool
        ensures { result ≡ held (pairs_of self.now) item }
    {
        matches!(self.keys.get(item), Some(Some(_)))
    }

    // The item in the first slot, with its key.
    fn root(&self) -> Option<(usize, K)>
        ensures found { Front (pairs_of self.now) result }
        ensures some { vacant (pairs_of self.now) ≡ not (is_some result) }
        ensures least { InOrder K.Key.leq self.now → Smallest K.Key.leq (pairs_of self.now) result }
    {
        if self.size == 0 {
            return None;
        }
        let item = self.slots[0];
        let key = self.keys[item]?;
        Some((item, key))
    }

    // Adds an item that is not held.
    fn add(&mut self, item: usize, key: K)
        requires within { item < length (pairs_of self.old) }
        requires free { held (pairs_of self.old) item ≡ false }
        ensures after { pairs_of self.new ≡ slice_set (pairs_of self.old) item (Some key) }
        ensures order { InOrder K.Key.leq self.old → InOrder K.Key.leq self.new }
    {
        let slot = self.places[item];
        let last = self.size;
        exchange(&mut self.slots, &mut self.places, slot, last);
        self.keys[item] = Some(key);
        self.size += 1;
        self.sift_up(last);
    }

    // Gives an item that is held another key.
    fn rekey(&mut self, item: usize, key: K)
        requires within { item < length (pairs_of self.old) }
        requires present { held (pairs_of self.old) item ≡ true }
        ensures after { pairs_of self.new ≡ slice_set (pairs_of self.old) item (Some key) }
        ensures order { InOrder K.Key.leq self.old → InOrder K.Key.leq self.new }
    {
        let slot = self.places[item];
        self.keys[item] = Some(key);
        self.settle(slot);
    }

    // Removes an item that is held.
    fn remove(&mut self, item: usize)
        requires within { item < length (pairs_of self.old) }
        requires present { held (pairs_of self.old) item ≡ true }
        ensures after { pairs_of self.new ≡ slice_set (pairs_of self.old) item None }
        ensures order { InOrder K.Key.leq self.old → InOrder K.Key.leq self.new }
    {
        let slot = self.places[item];
        let last = self.size - 1;
        exchange(&mut self.slots, &mut self.places, slot, last);
        self.keys[item] = None;
        self.size = last;
        if slot < last {
            self.settle(slot);
        }
    }
}

impl<K: Key> Queue for HeapQueue<K> {
    type Key = K;

    ghost pairs = { pairs_of };

    // No child's key is below its parent's.
    ghost sound = { InOrder K.Key.leq };

    ghost bounded = { first_of (Prim.search rules, Prim.grind (arith, Self.row.coded.inj)) };

    fn new(heap: Global, capacity: usize) -> Result<HeapQueue<K>, AllocError> {
        HeapQueue::empty(heap, capacity)
    }

    fn capacity(&self) -> usize {
        self.keys.len()
    }

    fn is_empty(&self) -> bool {
        self.root().is_none()
    }

    fn holds(&self, item: usize) -> bool {
        self.contains(item)
    }

    fn put(&mut self, item: usize, key: K) -> Result<(), QueueRefusal> {
        match self.keys.get(item) {
            Some(Some(_)) => self.rekey(item, key),
            Some(None) => self.add(item, key),
            None => return Err(QueueRefusal::Beyond),
        }
        Ok(())
    }

    fn drop_item(&mut self, item: usize) -> bool {
        let held = self.contains(item);
        if held {
            self.remove(item);
        }
        held
    }

    fn take(&mut self) -> Option<(usize, K)> {
        let pair = self.root()?;
        self.remove(pair.0);
        Some(pair)
    }
}
