// An estimator that misleads, to see a search end and open rows again.
ghost use Rattle.std.proofs.Common.{rules};

use estimator::estimator::Estimator;
use figure::figure::Figure;
use strips::state::State;
use strips::task::Task;

// Answers 10 where fact 1 stands, 20 where fact 5 does, else 0. It never agrees with its function, which is 0.
#[derive(Clone, Copy)]
pub struct Misleading;

impl Estimator for Misleading {
    ghost suits = { λ _ _. Unit {0} };

    ghost value = { λ _ _. 0 };

    ghost agrees = { λ _. ⊥ };

    ghost admissible = { Prim.search rules };

    fn fits(&self, _task: &Task) -> bool {
        true
    }

    fn estimate(&mut self, state: &State) -> Figure {
        if state.stands(1) {
            Figure::of(10)
        } else if state.stands(5) {
            Figure::of(20)
        } else {
            Figure::of(0)
        }
    }
}

// Answers as blind does, and fits no task.
#[derive(Clone, Copy)]
pub struct Unfit;

impl Estimator for Unfit {
    ghost suits = { λ _ _. ⊥ };

    ghost value = { λ _ _. 0 };

    ghost agrees = { λ _. Unit {0} };

    ghost admissible = { Prim.search rules };

    fn fits(&self, _task: &Task) -> bool {
        false
    }

    fn estimate(&mut self, _state: &State) -> Figure {
        Figure::of(0)
    }
}
