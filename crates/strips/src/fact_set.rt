// A list of facts, and the state in which just these stand.
ghost use Rattle.std.specs.Prelude.{◌≡◌, ℕ};
ghost use Rattle.model.specs.Strips.{names};
ghost use Rattle.strips.specs.Lists.{listed};
ghost use Rattle.strips.specs.Standing.{standing};

use crate::list::FactList;
use crate::state::State;

// The list is told and compared; by the state an action is tested and taken in a few word operations.
#[derive(Clone, Copy)]
pub struct FactSet<const N: usize> {
    pub(crate) list: FactList<N>,
    pub(crate) state: State,
    ghost same: { (f : ℕ) → standing state f ≡ names (listed list) f },
}

impl<const N: usize> FactSet<N> {
    pub(crate) fn new(list: FactList<N>) -> FactSet<N>
        ensures { result.list ≡ list.entry }
    {
        FactSet {
            list,
            state: State::of(list.as_slice()),
        }
    }
}

// By hand, since the list alone decides: the state follows from it.
impl<const N: usize> PartialEq for FactSet<N> {
    ghost use Rattle.std.specs.Prelude.{nat_eq};
    ghost use Rattle.std.specs.Cmp.Lexicographic.{pointwise};
    ghost use Rattle.std.specs.Cmp.Rules.{comparing};
    ghost use Rattle.std.specs.Ordering.{on};
    ghost use Rattle.std.proofs.Common.{rules};

    ghost eq = { on (λ s. listed s.list) (pointwise nat_eq) };

    ghost laws = { Prim.search (comparing, rules) };

    fn eq(&self, other: &FactSet<N>) -> bool {
        self.list == other.list
    }
}

impl<const N: usize> Eq for FactSet<N> {
    ghost use Rattle.std.specs.Cmp.Rules.{comparing};
    ghost use Rattle.std.proofs.Common.{rules};

    ghost laws = { Prim.search (comparing, rules) };
}
