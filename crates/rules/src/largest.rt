// The max rule: the largest member.
ghost use Rattle.std.specs.Prelude.{◌≡◌, map};
ghost use Rattle.figure.specs.Ranks.{rank};
ghost use Rattle.model.specs.Figures.{table, max_rule};
ghost use Rattle.model.proofs.Equations.{max_laws};

use crate::members::figure_at;
use crate::rule::CostRule;
use figure::figure::Figure;

// None if a member is none.
#[derive(Clone, Copy)]
pub struct MaxRule;

impl CostRule for MaxRule {
    ghost rule = { λ _. max_rule };

    ghost lawful = { λ s. max_laws };

    fn over(&self, figures: &[Figure], items: &[u8]) -> Figure {
        items.iter().fold(Figure::of(0), |most, item| {
            most.max(figure_at(figures, usize::from(*item)))
        })
    }
}
