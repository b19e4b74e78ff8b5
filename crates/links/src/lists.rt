// One list of an index.
ghost use Rattle.std.specs.Prelude.{◌≡◌, IfOk};
ghost use Rattle.std.specs.Fn.{FnReturnsAt};
ghost use Rattle.model.specs.Strips.{names};
ghost use Rattle.model.specs.Figures.{adders};
ghost use Rattle.strips.specs.Tasks.{problem};
ghost use Rattle.session_theory.specs.Readers.{readers};
ghost use Rattle.links.specs.Indexes.{Picks};

use std::alloc::{AllocError, Global};
use strips::action::Action;
use strips::task::Task;

// Whether the list has the fact.
fn contains(list: &[u8], fact: usize) -> bool
    ensures { result ≡ names list.now fact }
{
    list.iter().any(|x| usize::from(*x) == fact)
}

// The items of the actions that pass a test.
fn items_where<P: Fn(&Action) -> bool>(
    heap: Global,
    task: &Task,
    passes: P,
) -> Result<Vec<usize>, AllocError>
    requires { P.IsAlwaysCallable passes }
    ensures { IfOk result (λ v. Picks (FnReturnsAt P.Fn passes) (problem task.now) v.items) }
{
    let facts = usize::from(task.facts());
    let mut all = Vec::new(heap);
    // By number, since an action is asked for by its number, which gives its item.
    for k in 0..task.action_count() {
        if let Some(act) = task.action(k) {
            if passes(act) {
                all.push(facts + k)?;
            }
        }
    }
    Ok(all)
}

// The items of the actions that add a fact.
pub(crate) fn adders_of(heap: Global, task: &Task, fact: usize) -> Result<Vec<usize>, AllocError>
    ensures { IfOk result (λ v. v.items ≡ adders (problem task.now) fact) }
{
    items_where(heap, task, |act| contains(act.adds(), fact))
}

// The items that read an item: the actions that need a fact, the facts that an action adds.
pub(crate) fn readers_of(heap: Global, task: &Task, item: usize) -> Result<Vec<usize>, AllocError>
    ensures { IfOk result (λ v. v.items ≡ readers (problem task.now) item) }
{
    let facts = usize::from(task.facts());
    if item < facts {
        return items_where(heap, task, |act| contains(act.preconditions(), item));
    }
    match task.action(item - facts) {
        Some(act) => act.adds().iter().map(|f| usize::from(*f)).collect(heap),
        None => Ok(Vec::new(heap)),
    }
}
