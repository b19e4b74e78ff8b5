// The table of figures of a task in a state.
ghost use Rattle.std.specs.Prelude.{IfOk};
ghost use Rattle.strips.specs.Standing.{standing};
ghost use Rattle.strips.specs.Tasks.{problem};
ghost use Rattle.solve.specs.Tables.{Solved};

use crate::equations::Equations;
use figure::figure::Figure;
use rules::rule::CostRule;
use std::alloc::{AllocError, Global};
use strips::state::State;
use strips::task::Task;

// The figures of all items, facts and then actions: the one table that solves the equations. A fact beyond the task does no harm.
pub fn solve<R: CostRule>(
    heap: Global,
    task: &Task,
    state: &State,
    rule: &R,
) -> Result<Vec<Figure>, AllocError>
    ensures { IfOk result (λ v. Solved (R.CostRule.rule rule.now) (problem task.now) (standing state.now) v.items) }
{
    let mut figures = vec![in heap; Figure::None; task.item_count()]?;
    Equations { task, state, rule }.sweep_all(&mut figures);
    Ok(figures)
}
