// What a queue is: a capacity, and a set of pairs of item and key, at most one for an item.
ghost use Rattle.std.specs.Prelude.{◌≡◌, ◌^◌, ◌<◌, List, length, set, replicate, IfOk, None, Option, slice_set};
ghost use Rattle.queue.specs.Queues.{held, vacant, Put, Taken, Smallest};

use crate::key::Key;
use crate::refusal::QueueRefusal;
use std::alloc::{AllocError, Global};

// Items are numbered from 0 and stay below the capacity.
pub trait Queue: Sized {
    // The kind of key that the queue holds.
    type Key: Key;

    // At each item's number its key, or None where the item is not held. The length is the capacity.
    ghost pairs: { Self → List (Option Self.Key) };

    // What the order of takes rests on: making ensures it, and each call keeps it.
    ghost sound: { Self → Type 0 };

    // A queue that holds nothing. Only memory can be wanting.
    fn new(heap: Global, capacity: usize) -> Result<Self, AllocError>
        ensures { IfOk result (λ q. sound q × (pairs q ≡ replicate capacity None)) };

    fn capacity(&self) -> usize
        ensures { result ≡ length (pairs self.now) };

    fn is_empty(&self) -> bool
        ensures { result ≡ vacant (pairs self.now) };

    // Whether an item is held. Any number may be asked.
    fn holds(&self, item: usize) -> bool
        ensures { result ≡ held (pairs self.now) item };

    // Adds the pair, or gives a held item another key.
    fn put(&mut self, item: usize, key: Self::Key) -> Result<(), QueueRefusal>
        ensures keeps { sound self.old → sound self.new }
        ensures after { Put pairs self.old self.new item key result };

    // Removes an item's pair, and tells whether there was one. Any number may be dropped.
    fn drop_item(&mut self, item: usize) -> bool
        ensures keeps { sound self.old → sound self.new }
        ensures answer { result ≡ held (pairs self.old) item }
        ensures after { pairs self.new ≡ slice_set (pairs self.old) item None };

    // Removes a pair whose key no held key is below, and answers it. Among equal keys it may be any.
    fn take(&mut self) -> Option<(usize, Self::Key)>
        ensures keeps { sound self.old → sound self.new }
        ensures after { Taken (pairs self.old) (pairs self.new) result }
        ensures least { sound self.old → Smallest Self.Key.Key.leq (pairs self.old) result };

    ghost bounded: { (q : Self) → length (pairs q) < 2 ^ 64 };
}
