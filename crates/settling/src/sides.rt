// The right-hand sides of the equations.
ghost use Rattle.std.specs.Prelude.{◌≡◌};
ghost use Rattle.figure.specs.Ranks.{rank};
ghost use Rattle.model.specs.Figures.{table, least};
ghost use Rattle.strips.specs.Tasks.{problem};
ghost use Rattle.links.specs.Indexes.{Linked};
ghost use Rattle.session_theory.specs.Kept.{moved};
ghost use Rattle.settling.specs.Holding.{equations_of};

use crate::base::Base;
use figure::figure::Figure;
use rules::members::figure_at;
use rules::rule::CostRule;
use strips::state::State;

// What an inconsistent item's figure becomes, from its figure and its right-hand side.
pub(crate) fn moved_from(held: Figure, side: Figure) -> Figure
    ensures { result ≡ moved held side }
{
    if side < held { side } else { Figure::None }
}

// The smallest figure of the items listed; none if there are none.
fn least_of(figures: &[Figure], items: &[usize]) -> Figure
    ensures { rank result ≡ least (table figures.now) items.now }
{
    items.iter().fold(Figure::None, |best, item| {
        best.min(figure_at(figures, *item))
    })
}

// The right-hand side of an item's equation; none past the last item.
pub(crate) fn side_of<R: CostRule>(
    base: &Base<R>,
    state: &State,
    figures: &[Figure],
    item: usize,
) -> Figure
    ensures { Linked (problem base.now.task) base.now.links → rank result ≡ equations_of R.CostRule.rule base.now state.now (table figures.now) item }
{
    let facts = usize::from(base.task.facts());
    if item < facts {
        if state.stands(item as u8) {
            return Figure::of(0);
        }
        return least_of(figures, base.links.adders(item)) + Figure::of(1);
    }
    match base.task.action(item - facts) {
        Some(act) => base.rule.over(figures, act.preconditions()) + Figure::of(1),
        None => Figure::None,
    }
}
