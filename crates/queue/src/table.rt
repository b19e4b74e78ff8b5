// A queue that is a table of keys, scanned whole.
ghost use Rattle.std.specs.Prelude.{◌≡◌, not, replicate, is_some, IfOk, None};
ghost use Rattle.queue.specs.Queues.{vacant, Front, Smallest};
ghost use Rattle.queue.specs.Scans.{Better};
ghost use Rattle.std.proofs.Common.{rules};

use crate::key::Key;
use crate::queue::Queue;
use crate::refusal::QueueRefusal;
use std::alloc::{AllocError, Global};

// An optional key for each item.
#[derive(Drop)]
pub struct TableQueue<K: Key> {
    cells: Vec<Option<K>>,
}

// The better of the best so far and one more.
fn better<K: Key>(best: Option<(usize, K)>, item: usize, key: K) -> Option<(usize, K)>
    ensures { Better K.Key.leq best item key result }
{
    match best {
        Some(found) if found.1.at_most(key) => Some(found),
        _ => Some((item, key)),
    }
}

// A pair with a smallest key.
fn find<K: Key>(cells: &[Option<K>]) -> Option<(usize, K)>
    ensures found { Front cells.now result }
    ensures some { vacant cells.now ≡ not (is_some result) }
    ensures least { Smallest K.Key.leq cells.now result }
{
    let mut best = None;
    for (item, cell) in cells.iter().enumerate() {
        if let Some(key) = *cell {
            best = better(best, item, key);
        }
    }
    best
}

impl<K: Key> Queue for TableQueue<K> {
    type Key = K;

    ghost pairs = { λ q. q.cells.items };

    // A scan finds the smallest key in any table.
    ghost sound = { λ _. Unit {0} };

    ghost bounded = { Prim.search rules };

    fn new(heap: Global, capacity: usize) -> Result<TableQueue<K>, AllocError> {
        let cells = vec![in heap; None; capacity]?;
        Ok(TableQueue { cells })
    }

    fn capacity(&self) -> usize {
        self.cells.len()
    }

    fn is_empty(&self) -> bool {
        find(&self.cells).is_none()
    }

    fn holds(&self, item: usize) -> bool {
        matches!(self.cells.get(item), Some(Some(_)))
    }

    fn put(&mut self, item: usize, key: K) -> Result<(), QueueRefusal> {
        let cell = self.cells.get_mut(item).ok_or(QueueRefusal::Beyond)?;
        *cell = Some(key);
        Ok(())
    }

    fn drop_item(&mut self, item: usize) -> bool {
        match self.cells.get_mut(item) {
            Some(cell) => cell.take().is_some(),
            None => false,
        }
    }

    fn take(&mut self) -> Option<(usize, K)> {
        let pair = find(&self.cells)?;
        self.cells[pair.0] = None;
        Some(pair)
    }
}
