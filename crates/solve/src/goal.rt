// The goal figure of a table.
ghost use Rattle.std.specs.Prelude.{◌≡◌};
ghost use Rattle.figure.specs.Ranks.{rank};
ghost use Rattle.model.specs.Figures.{table, goal_figure};
ghost use Rattle.strips.specs.Tasks.{problem};

use figure::figure::Figure;
use rules::rule::CostRule;
use strips::task::Task;

// Half the rule's result over the figures of the goal; half of none is none.
pub fn goal_figure<R: CostRule>(task: &Task, rule: &R, figures: &[Figure]) -> Figure
    ensures { rank result ≡ goal_figure (R.CostRule.rule rule.now) (problem task.now) (table figures.now) }
{
    rule.over(figures, task.goal()).half()
}
