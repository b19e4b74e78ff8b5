// Ordered keys: figures, and pairs of numbers.
ghost use Rattle.std.specs.Prelude.{◌≡◌, Bool};
ghost use Rattle.queue.specs.Keys.{Orders, figure_leq, pair_leq};
ghost use Rattle.std.proofs.Common.{inl, inr, ⊎_elim, arith, rules};
ghost use Rattle.std.proofs.lemmas.Bool.{cases_lt, leb-true, le-leb};
ghost use Rattle.figure.proofs.Same.{same_rank};
ghost use Rattle.figure.specs.Ranks.{rank};

use figure::figure::Figure;

// A kind of key with a total order.
pub trait Key: Copy + Drop {
    // Whether the first is at most the second.
    ghost leq: { Self → Self → Bool };

    fn at_most(self, other: Self) -> bool
        ensures { result ≡ leq self other };

    // Of two one is at most the other, both ways only if equal, and the order passes along a chain.
    ghost orders: { Orders leq };
}

// None is above every number.
impl Key for Figure {
    ghost leq = { figure_leq };

    ghost orders = { record {
      total = λ f g. ⊎_elim (λ h. inl (le-leb (rank f) (rank g) (omega arith))) (λ h. inr (le-leb (rank g) (rank f) h)) (cases_lt (rank f) (rank g));
      antisym = λ f g p q. same_rank f g (omega (arith, leb-true (rank f) (rank g) p, leb-true (rank g) (rank f) q));
      trans = λ f g h p q. le-leb (rank f) (rank h) (omega (arith, leb-true (rank f) (rank g) p, leb-true (rank g) (rank h) q));
    } };

    fn at_most(self, other: Figure) -> bool {
        Figure::at_most(self, other)
    }
}

// Two numbers, of which the first decides first.
#[derive(Debug, Clone, Copy, PartialEq, Eq, PartialOrd, Ord)]
pub struct Pair {
    pub first: u32,
    pub second: u32,
}

impl Key for Pair {
    ghost leq = { pair_leq };

    ghost orders = { Prim.search rules };

    fn at_most(self, other: Pair) -> bool {
        if self.first == other.first {
            self.second <= other.second
        } else {
            self.first < other.first
        }
    }
}
