// An action: what it needs, adds and deletes.
ghost use Rattle.std.specs.Prelude.{◌≡◌};
ghost use Rattle.strips.specs.Lists.{listed};
ghost use Rattle.strips.specs.Actions.{action_of};
ghost use Rattle.strips.specs.Fitting.{fits};

use crate::fact_set::FactSet;
use crate::list::FactList;

#[derive(Clone, Copy, PartialEq, Eq)]
pub struct Action {
    pub(crate) preconditions: FactSet<16>,
    pub(crate) adds: FactSet<16>,
    pub(crate) deletes: FactSet<16>,
}

impl Action {
    // An action of three lists.
    pub fn new(pre: FactList<16>, add: FactList<16>, del: FactList<16>) -> Action
        ensures { action_of result ≡ record { pre = listed pre; add = listed add; del = listed del } }
    {
        Action {
            preconditions: FactSet::new(pre),
            adds: FactSet::new(add),
            deletes: FactSet::new(del),
        }
    }

    // The facts that must stand.
    pub fn preconditions(&self) -> &[u8]
        ensures { result.now ≡ (action_of self.now).pre }
    {
        self.preconditions.list.as_slice()
    }

    // The facts that it makes stand.
    pub fn adds(&self) -> &[u8]
        ensures { result.now ≡ (action_of self.now).add }
    {
        self.adds.list.as_slice()
    }

    // The facts that it makes fall.
    pub fn deletes(&self) -> &[u8]
        ensures { result.now ≡ (action_of self.now).del }
    {
        self.deletes.list.as_slice()
    }

    // Whether it names only facts of a task that has so many.
    pub(crate) fn fits(&self, facts: u8) -> bool
        ensures { result ≡ fits facts self.now }
    {
        self.preconditions.list.is_below(facts)
            && self.adds.list.is_below(facts)
            && self.deletes.list.is_below(facts)
    }
}
