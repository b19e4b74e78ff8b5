// What one rule makes of a task.
ghost use Rattle.std.specs.Prelude.{IfOk};
ghost use Rattle.strips.specs.Tasks.{problem};
ghost use Rattle.table.specs.Columns.{WorkedOut};

use figure::figure::Figure;
use rules::rule::CostRule;
use solve::goal::goal_figure;
use solve::table::solve;
use std::alloc::{AllocError, Global};
use strips::task::Task;

#[derive(Drop)]
pub struct Column {
    pub figures: Vec<Figure>,
    pub goal: Figure,
}

// The figures of the task where its start facts stand.
pub fn column_of<R: CostRule>(heap: Global, task: &Task, rule: &R) -> Result<Column, AllocError>
    ensures { IfOk result (λ c. WorkedOut (R.CostRule.rule rule.now) (problem task.now) c) }
{
    let figures = solve(heap, task, &task.start_state(), rule)?;
    let goal = goal_figure(task, rule, &figures);
    Ok(Column { figures, goal })
}
