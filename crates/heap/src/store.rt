// What a heap keeps, and what holds of it at every moment.
ghost use Rattle.std.specs.Prelude.{◌≡◌, ℕ, ◌<◌, ◌≤◌, length, is_some, nat_lt};
ghost use Rattle.heap_theory.specs.Heaps.{Paired, Held};

// Keys by item; items by slot, every item in one slot, those that are held first; slots by item.
#[derive(Drop)]
pub struct HeapQueue<K> {
    pub(crate) keys: Vec<Option<K>>,
    pub(crate) slots: Vec<usize>,
    pub(crate) places: Vec<usize>,
    pub(crate) size: usize,
    ghost fits: { size ≤ length keys.items },
    ghost paired: { Paired slots.items places.items (length keys.items) },
    ghost held: { Held keys.items slots.items size },
}
