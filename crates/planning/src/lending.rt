// Making what is lent to a search.
ghost use Rattle.std.specs.Prelude.{IfOk};
ghost use Rattle.planning.specs.Premises.{Lendable};

use crate::lent::Lent;
use heap::heap::HeapQueue;
use queue::key::Pair;
use queue::queue::Queue;
use rows::row::Row;
use std::alloc::{AllocError, Global};

// As many states may be recorded.
const ROWS: usize = 1024;

// An empty queue, rows and steps.
pub(crate) fn lend(heap: Global) -> Result<Lent, AllocError>
    ensures { IfOk result Lendable }
{
    let frontier: HeapQueue<Pair> = HeapQueue::new(heap, ROWS)?;
    let rows = vec![in heap; Row::unused(); ROWS]?;
    let steps = vec![in heap; 0; ROWS]?;
    Ok(Lent {
        frontier,
        rows,
        steps,
    })
}
