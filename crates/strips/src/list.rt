// A list of facts, as actions, goals and starts have them.
ghost use Rattle.std.specs.Prelude.{◌≡◌, ℕ, ◌+◌, ◌<◌, ◌≤◌, length, slice_index};

use crate::fault::ListFault;

// At most N facts, strictly rising.
// By hand, since memory is fixed and lists are copied as values, which the kit's arrayvec is not.
#[derive(Clone, Copy)]
pub struct FactList<const N: usize> {
    facts: [u8; N],
    count: usize,
    ghost whole: { length facts ≡ N },
    ghost few: { count ≤ N },
    ghost rising: { (k : ℕ) → k + 1 < count → slice_index facts k < slice_index facts (k + 1) },
}

impl<const N: usize> FactList<N> {
    ghost use Rattle.std.specs.Prelude.{[]};
    ghost use Rattle.strips.specs.Lists.{listed, Pushed};
    ghost use Rattle.strips.specs.Fitting.{below};

    // The empty list.
    pub fn new() -> FactList<N>
        ensures { listed result ≡ [] }
    {
        FactList {
            facts: [0; N],
            count: 0,
        }
    }

    // Puts a fact at the end: refused where the list is full, or the fact is not above the last.
    pub fn push(&mut self, fact: u8) -> Result<(), ListFault>
        ensures { Pushed N (listed self.old) fact (listed self.new) result }
    {
        let count = self.count;
        if count >= N {
            return Err(ListFault::Full);
        }
        if self.as_slice().last().is_some_and(|last| *last >= fact) {
            return Err(ListFault::NotRising);
        }
        self.facts[count] = fact;
        self.count = count + 1;
        Ok(())
    }

    // The facts.
    pub fn as_slice(&self) -> &[u8]
        ensures { result.now ≡ listed self.now }
    {
        &self.facts[..self.count]
    }

    // Whether the facts are facts of a task that has so many.
    pub(crate) fn is_below(&self, facts: u8) -> bool
        ensures { result ≡ below facts (listed self.now) }
    {
        self.as_slice().iter().all(|fact| *fact < facts)
    }
}

impl<const N: usize> Default for FactList<N> {
    ghost use Rattle.std.specs.Prelude.{[]};
    ghost use Rattle.strips.specs.Lists.{listed};

    ghost is_default = { λ list. listed list ≡ [] };

    fn default() -> FactList<N> {
        FactList::new()
    }
}

impl<const N: usize> TryFrom<&[u8]> for FactList<N> {
    ghost use Rattle.strips.specs.Lists.{Taken};

    type Error = ListFault;

    ghost try_from_gives = { λ facts made. Taken facts.now made };

    // The list of these facts, or why the first that cannot join is refused.
    fn try_from(facts: &[u8]) -> Result<FactList<N>, ListFault> {
        let mut list = FactList::new();
        for fact in facts {
            list.push(*fact)?;
        }
        Ok(list)
    }
}

// By hand, since what lies beyond the count is no part of the list.
impl<const N: usize> PartialEq for FactList<N> {
    ghost use Rattle.std.specs.Prelude.{nat_eq};
    ghost use Rattle.std.specs.Cmp.Lexicographic.{pointwise};
    ghost use Rattle.std.specs.Cmp.Rules.{comparing};
    ghost use Rattle.std.specs.Ordering.{on};
    ghost use Rattle.std.proofs.Common.{rules};
    ghost use Rattle.strips.specs.Lists.{listed};

    ghost eq = { on listed (pointwise nat_eq) };

    ghost laws = { Prim.search (comparing, rules) };

    fn eq(&self, other: &FactList<N>) -> bool {
        self.as_slice() == other.as_slice()
    }
}

impl<const N: usize> Eq for FactList<N> {
    ghost use Rattle.std.specs.Cmp.Rules.{comparing};
    ghost use Rattle.std.proofs.Common.{rules};

    ghost laws = { Prim.search (comparing, rules) };
}
