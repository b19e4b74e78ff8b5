// The slots of a heap: exchanging two, and comparing the keys of what they hold.
// Over lent slices, not methods of the heap, since a step that goes through the heap's vectors takes a fifth longer.
ghost use Rattle.std.specs.Prelude.{◌≡◌, ℕ, ◌+◌, ◌*◌, ◌<◌, ◌≤◌, true, length, slice_index};
ghost use Rattle.heap_theory.specs.Heaps.{Paired, Swapped, Child, slot_key, option_leq};

use queue::key::Key;

// Exchanges what two slots hold.
pub(crate) fn exchange(slots: &mut [usize], places: &mut [usize], a: usize, b: usize)
    requires paired { Paired slots.old places.old (length slots.old) }
    requires within { (a < length slots.old) × (b < length slots.old) }
    ensures pairs { Paired slots.new places.new (length slots.old) }
    ensures swaps { Swapped (λ i. slice_index slots.old i) (λ i. slice_index slots.new i) a b }
{
    let x = slots[a];
    let y = slots[b];
    slots[a] = y;
    slots[b] = x;
    places[y] = a;
    places[x] = b;
}

// Whether the first is at most the second, where no key is above every key.
fn at_most_option<K: Key>(a: Option<K>, b: Option<K>) -> bool
    ensures { result ≡ option_leq K.Key.leq a b }
{
    b.is_none_or(|y| a.is_some_and(|x| x.at_most(y)))
}

// Whether the key in the first slot is at most that in the second.
pub(crate) fn in_order<K: Key>(keys: &[Option<K>], slots: &[usize], a: usize, b: usize) -> bool
    requires within { (a < length slots.now) × (b < length slots.now) }
    requires items { (slice_index slots.now a < length keys.now) × (slice_index slots.now b < length keys.now) }
    ensures { result ≡ option_leq K.Key.leq (slot_key keys.now slots.now a) (slot_key keys.now slots.now b) }
{
    at_most_option(keys[slots[a]], keys[slots[b]])
}

// The child of a slot whose key is not above the other's.
pub(crate) fn lesser_child<K: Key>(
    keys: &[Option<K>],
    slots: &[usize],
    size: usize,
    slot: usize,
) -> usize
    requires long { length slots.now ≡ length keys.now }
    requires items { (i : ℕ) → i < length keys.now → slice_index slots.now i < length keys.now }
    requires within { (2 * slot + 1 < size) × (size ≤ length keys.now) }
    ensures child { Child slot result × (result < size) }
    ensures least { (j : ℕ) → Child slot j → j < size → option_leq K.Key.leq (slot_key keys.now slots.now result) (slot_key keys.now slots.now j) ≡ true }
{
    let left = 2 * slot + 1;
    if left == size - 1 {
        return left;
    }
    if in_order(keys, slots, left, left + 1) {
        left
    } else {
        left + 1
    }
}
