// The larger figure of two estimators.
ghost use Rattle.std.specs.Prelude.{◌≡◌, max};
ghost use Rattle.figure.specs.Ranks.{rank};
ghost use Rattle.std.proofs.Common.{arith};

use crate::estimator::Estimator;
use figure::figure::Figure;
use strips::state::State;
use strips::task::Task;

// Fits what both fit, and answers the larger figure. It agrees if both do.
#[derive(Drop)]
pub struct Larger<P, Q> {
    pub(crate) first: P,
    pub(crate) second: Q,
}

impl<P, Q> Larger<P, Q> {
    // Made of two estimators.
    pub fn new(first: P, second: Q) -> Larger<P, Q>
        ensures { (result.first ≡ first) × (result.second ≡ second) }
    {
        Larger { first, second }
    }
}

impl<P: Estimator, Q: Estimator> Estimator for Larger<P, Q> {
    ghost suits = { λ e p. P.Estimator.suits e.first p × Q.Estimator.suits e.second p };

    ghost value = { λ e s. max (P.Estimator.value e.first s) (Q.Estimator.value e.second s) };

    ghost agrees = { λ e. P.Estimator.agrees e.first × Q.Estimator.agrees e.second };

    ghost admissible = { λ e p fits s acts plan.
        let a = P.Estimator.admissible e.first p fits.0 s acts plan in
        let b = Q.Estimator.admissible e.second p fits.1 s acts plan in
        record { number = omega (arith, a.number, b.number); low = omega (arith, a.low, b.low) } };

    fn fits(&self, task: &Task) -> bool {
        self.first.fits(task) && self.second.fits(task)
    }

    fn estimate(&mut self, state: &State) -> Figure {
        let left = self.first.estimate(state);
        let right = self.second.estimate(state);
        left.max(right)
    }
}
