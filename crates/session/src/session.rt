// A session and what it owns.
ghost use Rattle.std.specs.Prelude.{◌≡◌, vec_len};
ghost use Rattle.model.specs.Strips.{items};
ghost use Rattle.strips.specs.Tasks.{problem};

use settling::base::Base;
use settling::held::HeldFigures;
use strips::state::State;

// A task with its rule, the facts that stand, the figures held, and whether they are those of the facts that stand.
// That the figures are right is no part of the type: each call promises it of a session that such calls made, since it rests on what the queue kept.
#[derive(Drop)]
pub struct Session<R, Q> {
    pub(crate) base: Base<R>,
    pub(crate) state: State,
    pub(crate) held: HeldFigures<Q>,
    pub(crate) settled: bool,
    ghost long: { vec_len held.figures ≡ items (problem base.task) },
}
