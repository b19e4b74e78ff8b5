// The additive rule: the sum of the members.
ghost use Rattle.std.specs.Prelude.{◌≡◌, map};
ghost use Rattle.figure.specs.Ranks.{rank};
ghost use Rattle.model.specs.Figures.{table, additive_rule};
ghost use Rattle.model.proofs.Equations.{additive_laws};

use crate::members::figure_at;
use crate::rule::CostRule;
use figure::figure::Figure;

// None if a member is none or the sum exceeds the ceiling.
#[derive(Clone, Copy)]
pub struct AdditiveRule;

impl CostRule for AdditiveRule {
    ghost rule = { λ _. additive_rule };

    ghost lawful = { λ s. additive_laws };

    fn over(&self, figures: &[Figure], items: &[u8]) -> Figure {
        items.iter().fold(Figure::of(0), |sum, item| {
            sum + figure_at(figures, usize::from(*item))
        })
    }
}
