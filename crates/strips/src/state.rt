// A state: which of 256 facts stand, whatever the task.
ghost use Rattle.std.specs.Prelude.{◌≡◌, ℕ, ◌^◌, ◌<◌, length, slice_index};

// Fact f is bit f % 64 of word f / 64.
#[derive(Clone, Copy)]
pub struct State {
    words: [u64; 4],
    ghost four: { length words ≡ 4 },
    ghost small: { (i : ℕ) → slice_index words i < 2 ^ 64 },
}

impl State {
    ghost use Rattle.std.specs.Prelude.{not, [], Decides};
    ghost use Rattle.std.specs.List.{AllByRecursion};
    ghost use Rattle.model.specs.Strips.{Stands, these, entered, struck, changed};
    ghost use Rattle.model.specs.Rehearsals.{lacking};
    ghost use Rattle.strips.specs.Members.{Covers, FirstFrom};
    ghost use Rattle.strips.specs.Standing.{standing};

    // Nothing stands.
    pub fn new() -> State
        ensures { standing result ≡ these [] }
    {
        State { words: [0; 4] }
    }

    // The facts of the list stand, and no others.
    pub fn of(list: &[u8]) -> State
        ensures { standing result ≡ these list.now }
    {
        let mut state = State::new();
        for fact in list {
            state.insert(*fact);
        }
        state
    }

    // Whether the fact stands.
    pub fn stands(&self, fact: u8) -> bool
        ensures { result ≡ standing self.now fact }
    {
        self.words[(fact / 64) as usize] >> (fact % 64) & 1 == 1
    }

    // Enters the fact: makes it stand; tells whether it had not stood.
    pub fn insert(&mut self, fact: u8) -> bool
        ensures told { result ≡ not (standing self.old fact) }
        ensures after { standing self.new ≡ entered fact (standing self.old) }
    {
        let stood = self.stands(fact);
        self.words[(fact / 64) as usize] |= 1 << (fact % 64);
        !stood
    }

    // Strikes the fact: makes it fall; tells whether it had stood.
    pub fn remove(&mut self, fact: u8) -> bool
        ensures told { result ≡ standing self.old fact }
        ensures after { standing self.new ≡ struck fact (standing self.old) }
    {
        let stood = self.stands(fact);
        self.words[(fact / 64) as usize] &= !(1 << (fact % 64));
        stood
    }

    // Whether every fact of the other state stands in this one.
    pub fn covers(&self, other: &State) -> bool
        ensures { Decides result (Covers (standing self.now) (standing other.now)) }
    {
        self.words
            .iter()
            .zip(&other.words)
            .all(|(word, wanted)| *word & *wanted == *wanted)
    }

    // Removes the facts of the first state, then puts in those of the second.
    pub fn change(&mut self, deletes: &State, adds: &State)
        ensures { standing self.new ≡ changed (standing deletes.now) (standing adds.now) (standing self.old) }
    {
        // By index, since three arrays are walked in step and one is written: a zip of zips is no plainer.
        for i in 0..4 {
            self.words[i] = self.words[i] & !deletes.words[i] | adds.words[i];
        }
    }

    // Whether each fact of the list stands.
    pub fn has_all(&self, list: &[u8]) -> bool
        ensures { Decides result (AllByRecursion (Stands (standing self.now)) list.now) }
    {
        list.iter().all(|fact| self.stands(*fact))
    }

    // The first fact of the list that does not stand.
    pub fn first_missing(&self, list: &[u8]) -> Option<u8>
        ensures { result ≡ lacking (standing self.now) list.now }
    {
        list.iter().copied().find(|fact| !self.stands(*fact))
    }

    // The first fact at or beyond the number that stands.
    pub fn first_from(&self, number: u8) -> Option<u8>
        ensures { FirstFrom (standing self.now) number result }
    {
        (number..=255).find(|fact| self.stands(*fact))
    }
}

impl Default for State {
    ghost use Rattle.std.specs.Prelude.{[]};
    ghost use Rattle.model.specs.Strips.{these};
    ghost use Rattle.strips.specs.Standing.{standing};

    ghost is_default = { λ state. standing state ≡ these [] };

    fn default() -> State {
        State::new()
    }
}

// By hand, since a derived == would say nothing of facts, and `same` does.
impl PartialEq for State {
    ghost use Rattle.std.specs.Prelude.{Decides, nat_eq};
    ghost use Rattle.std.specs.Cmp.Lexicographic.{pointwise};
    ghost use Rattle.std.specs.Cmp.Rules.{comparing};
    ghost use Rattle.std.specs.Ordering.{on};
    ghost use Rattle.std.proofs.Common.{rules};
    ghost use Rattle.strips.specs.Standing.{standing};

    ghost eq = { on (λ s. s.words) (pointwise nat_eq) };

    ghost laws = { Prim.search (comparing, rules) };

    fn eq(&self, other: &State) -> bool
        ensures value { result ≡ pointwise nat_eq self.now.words other.now.words }
        ensures same { Decides result (standing self.now ≡ standing other.now) }
    {
        self.words == other.words
    }
}

impl Eq for State {
    ghost use Rattle.std.specs.Cmp.Rules.{comparing};
    ghost use Rattle.std.proofs.Common.{rules};

    ghost laws = { Prim.search (comparing, rules) };
}
