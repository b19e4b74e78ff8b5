// Building the indexes.
ghost use Rattle.std.specs.Prelude.{IfOk};
ghost use Rattle.strips.specs.Tasks.{problem};
ghost use Rattle.links.specs.Indexes.{Lists, Linked};

use crate::links::Links;
use crate::lists::{adders_of, readers_of};
use std::alloc::{AllocError, Global};
use strips::task::Task;

// A list for each number below the count.
fn lists_below<F: Fn(usize) -> Result<Vec<usize>, AllocError>>(
    heap: Global,
    count: usize,
    list: F,
) -> Result<Vec<Vec<usize>>, AllocError>
    requires { F.IsAlwaysCallable list }
    ensures { IfOk result (Lists (F.post list) count) }
{
    let mut all = Vec::new(heap);
    for q in 0..count {
        all.push(list(q)?)?;
    }
    Ok(all)
}

impl Links {
    // The indexes of a task.
    pub fn of(heap: Global, task: &Task) -> Result<Links, AllocError>
        ensures { IfOk result (Linked (problem task.now)) }
    {
        // That every task is lawful, the promise of this call, says that an action needs facts alone.
        let facts = usize::from(task.facts());
        let adders = lists_below(heap, facts, |f| adders_of(heap, task, f))?;
        let readers = lists_below(heap, task.item_count(), |q| readers_of(heap, task, q))?;
        Ok(Links { adders, readers })
    }
}
