// The figures that are held.
ghost use Rattle.std.specs.Prelude.{◌≡◌, vec_len};

use figure::figure::Figure;

// By item its held figure and the right-hand side of its equation; the queue has the items where they differ.
// Two lists, since a rule takes the held figures of all items as one slice, which is lent to callers too.
#[derive(Drop)]
pub struct HeldFigures<Q> {
    pub(crate) figures: Vec<Figure>,
    pub(crate) sides: Vec<Figure>,
    pub(crate) queue: Q,
    ghost level: { vec_len sides ≡ vec_len figures },
}
