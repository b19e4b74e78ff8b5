// Finding a kept state, and bringing it to the front.
ghost use Rattle.std.specs.Prelude.{◌≡◌, ◌<◌, ◌∷◌, length, Some, MatchOption};
ghost use Rattle.std.specs.List.{slice_get};
ghost use Rattle.strips.specs.Standing.{standing};
ghost use Rattle.estimator.specs.Keeps.{Lacks, Placed, moved};

use crate::keeping::Kept;
use strips::state::State;

// The place of the state, if it is kept.
pub(crate) fn place(kept: &[Kept], state: &State) -> Option<usize>
    ensures { MatchOption result (Lacks kept.now (standing state.now)) (λ i. (i < length kept.now) × Placed kept.now (standing state.now) i) }
{
    kept.iter().position(|one| one.state == *state)
}

// Brings the one at a place to the front. Those before it move back by one, and no other is touched.
pub(crate) fn to_front(kept: &mut [Kept], at: usize)
    requires { at < length kept.old }
    ensures front { (one : Kept) → slice_get kept.old at ≡ Some one → kept.new ≡ one ∷ moved kept.old at }
    ensures long { length kept.new ≡ length kept.old }
{
    kept[..=at].rotate_right(1);
}
