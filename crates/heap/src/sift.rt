// Moving what stands in one slot to where heap order wants it.
ghost use Rattle.std.specs.Prelude.{◌≡◌, ◌<◌};
ghost use Rattle.heap.specs.Meaning.{pairs_of, InOrder, RisingAt, SinkingAt, LooseAt};

use crate::slots::{exchange, in_order, lesser_child};
use crate::store::HeapQueue;
use queue::key::Key;

impl<K: Key> HeapQueue<K> {
    // Moves what stands at `start` up to where it belongs.
    pub(crate) fn sift_up(&mut self, start: usize)
        requires { start < self.old.size }
        ensures pairs { pairs_of self.new ≡ pairs_of self.old }
        ensures size { self.new.size ≡ self.old.size }
        ensures order { RisingAt K.Key.leq self.old start → InOrder K.Key.leq self.new }
    {
        let keys = self.keys.as_slice();
        let slots = self.slots.as_mut_slice();
        let places = self.places.as_mut_slice();
        let mut slot = start;
        while slot > 0 {
            let parent = (slot - 1) / 2;
            if in_order(keys, slots, parent, slot) {
                return;
            }
            exchange(slots, places, slot, parent);
            slot = parent;
        }
    }
    // Moves what stands at `start` down to where it belongs.
    fn sift_down(&mut self, start: usize)
        requires { start < self.old.size }
        ensures pairs { pairs_of self.new ≡ pairs_of self.old }
        ensures size { self.new.size ≡ self.old.size }
        ensures order { SinkingAt K.Key.leq self.old start → InOrder K.Key.leq self.new }
    {
        let size = self.size;
        let keys = self.keys.as_slice();
        let slots = self.slots.as_mut_slice();
        let places = self.places.as_mut_slice();
        let mut slot = start;
        while slot < size / 2 {
            let child = lesser_child(keys, slots, size, slot);
            if in_order(keys, slots, slot, child) {
                return;
            }
            exchange(slots, places, slot, child);
            slot = child;
        }
    }

    // Moves what stands at `slot` up or down to where it belongs.
    // Inlined, since a call that reads the heap's fields anew makes a take one part in thirty slower.
    #[inline(always)]
    pub(crate) fn settle(&mut self, slot: usize)
        requires { slot < self.old.size }
        ensures pairs { pairs_of self.new ≡ pairs_of self.old }
        ensures size { self.new.size ≡ self.old.size }
        ensures order { LooseAt K.Key.leq self.old slot → InOrder K.Key.leq self.new }
    {
        if slot > 0 && !in_order(&self.keys, &self.slots, (slot - 1) / 2, slot) {
            self.sift_up(slot);
        } else {
            self.sift_down(slot);
        }
    }
}
