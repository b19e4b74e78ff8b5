// What is kept of earlier asks.
ghost use Rattle.std.specs.Prelude.{◌≤◌, length};

use arrayvec::ArrayVec;
use figure::figure::Figure;
use strips::state::State;

// A state that was asked, and its figure.
#[derive(Clone, Copy, Default)]
pub struct Kept {
    pub state: State,
    pub figure: Figure,
}

// Has the tasks and the function of another estimator, and holds the last 16 different states asked, the latest first.
#[derive(Drop)]
pub struct Keeping<E> {
    pub(crate) inner: E,
    pub(crate) latest: ArrayVec<Kept, 16>,
    ghost few: { length latest.items ≤ 16 },
}
