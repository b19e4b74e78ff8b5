// Keeping as an estimator.
ghost use Rattle.std.specs.Prelude.{◌≡◌, []};
ghost use Rattle.figure.specs.Ranks.{rank};
ghost use Rattle.strips.specs.Standing.{standing};
ghost use Rattle.estimator.specs.Meanings.{Leaves};
ghost use Rattle.estimator.specs.Keeps.{kept, Asked, Agreeing};

use crate::estimator::Estimator;
use crate::keeping::{Keeping, Kept};
use crate::places::{place, to_front};
use arrayvec::ArrayVec;
use figure::figure::Figure;
use strips::state::State;
use strips::task::Task;

impl<E> Keeping<E> {
    // Over an estimator; nothing is kept yet.
    pub fn new(inner: E) -> Keeping<E>
        ensures { (result.inner ≡ inner) × (kept result ≡ []) }
    {
        let latest = ArrayVec::new();
        Keeping { inner, latest }
    }
}

impl<E: Estimator> Estimator for Keeping<E> {
    ghost suits = { λ k. E.Estimator.suits k.inner };

    ghost value = { λ k. E.Estimator.value k.inner };

    ghost agrees = { Agreeing E.Estimator.agrees E.Estimator.value };

    ghost admissible = { λ e. E.Estimator.admissible e.inner };

    fn fits(&self, task: &Task) -> bool {
        self.inner.fits(task)
    }

    // A kept state's figure is answered without asking again.
    fn estimate(&mut self, state: &State) -> Figure
        ensures figure { Agreeing E.Estimator.agrees E.Estimator.value self.old → rank result ≡ E.Estimator.value self.old.inner (standing state.now) }
        ensures leaves { Leaves (λ k. E.Estimator.suits k.inner) (λ k. E.Estimator.value k.inner) (Agreeing E.Estimator.agrees E.Estimator.value) self.old self.new }
        ensures keeps { Asked (kept self.old) state.now result (kept self.new) }
    {
        if let Some(at) = place(&self.latest, state) {
            let figure = self.latest[at].figure;
            to_front(&mut self.latest, at);
            return figure;
        }
        let figure = self.inner.estimate(state);
        self.latest.truncate(15);
        self.latest.insert(
            0,
            Kept {
                state: *state,
                figure,
            },
        );
        figure
    }
}
