// The estimator that knows nothing.
ghost use Rattle.std.proofs.Common.{rules};

use crate::estimator::Estimator;
use figure::figure::Figure;
use strips::state::State;
use strips::task::Task;

// Fits every task, and answers 0.
#[derive(Clone, Copy)]
pub struct Blind;

impl Estimator for Blind {
    ghost suits = { λ _ _. Unit {0} };

    ghost value = { λ _ _. 0 };

    ghost agrees = { λ _. Unit {0} };

    ghost admissible = { Prim.search rules };

    fn fits(&self, _task: &Task) -> bool {
        true
    }

    fn estimate(&mut self, _state: &State) -> Figure {
        Figure::of(0)
    }
}
