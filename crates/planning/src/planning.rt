// Planning a task.
ghost use Rattle.std.specs.Prelude.{IfOk};
ghost use Rattle.strips.specs.Tasks.{problem};
ghost use Rattle.planning.specs.Laws.{PlannedLaw};

use crate::asking::calls_for;
use crate::estimating::estimator_of;
use crate::planned::Planned;
use crate::searching::plan_over;
use std::alloc::{AllocError, Global};
use strips::task::Task;

// Both goal figures of the start, and a shortest plan from there, searched with 1,024 rows. An error says that memory was wanting.
pub fn plan(heap: Global, task: &Task) -> Result<Planned, AllocError>
    ensures { IfOk result (PlannedLaw (problem task.now)) }
{
    let calls = calls_for(task);
    let (max, est) = estimator_of(heap, task, &calls)?;
    plan_over(heap, task, &calls, max, est)
}
