// Figures and the numbers they stand for.
ghost use Rattle.std.specs.Prelude.{◌≡◌, ◌+◌, Some, Decides, min, max, nat_eq, nat_le};
ghost use Rattle.std.specs.Ordering.{on, ord_min, ord_max};
ghost use Rattle.figure.specs.Ranks.{rank, cut, number_of, halved};
ghost use Rattle.figure.specs.Texts.{printed};
ghost use Rattle.std.specs.Cmp.Rules.{comparing};
ghost use Rattle.std.proofs.Common.{rules};

use crate::cost::Cost;
use crate::figure::Figure;
use std::fmt;
use std::ops::Add;

impl Figure {
    // The largest number that is a figure.
    pub const CEILING: u32 = 2_000_000;

    // The figure of a number: none above the ceiling.
    pub fn of(number: u32) -> Figure
        ensures { rank result ≡ cut number }
    {
        if number <= Self::CEILING {
            Figure::Number(Cost { value: number })
        } else {
            Figure::None
        }
    }

    // The number, unless it is none.
    pub fn number(self) -> Option<u32>
        ensures { result ≡ number_of self }
    {
        match self {
            Figure::Number(cost) => Some(cost.value),
            Figure::None => None,
        }
    }

    // Whether this figure is at most the other. By hand: the derived comparison makes the least of many figures a quarter slower.
    pub fn at_most(self, other: Figure) -> bool
        ensures { result ≡ nat_le (rank self) (rank other) }
    {
        match (self, other) {
            (_, Figure::None) => true,
            (Figure::None, Figure::Number(_)) => false,
            (Figure::Number(cost), Figure::Number(bound)) => cost.value <= bound.value,
        }
    }

    // Half of the figure, rounded down; half of none is none.
    pub fn half(self) -> Figure
        ensures { rank result ≡ halved (rank self) }
    {
        match self {
            Figure::Number(cost) => Figure::Number(Cost {
                value: cost.value / 2,
            }),
            Figure::None => Figure::None,
        }
    }
}

// By hand, since a derive promises nothing of ranks, nor that two are one.
impl PartialEq for Figure {
    ghost eq = { on rank nat_eq };

    ghost laws = { Prim.search (comparing, rules) };

    fn eq(&self, other: &Figure) -> bool
        ensures value { result ≡ on rank nat_eq self.now other.now }
        ensures same { Decides result (self.now ≡ other.now) }
    {
        match (*self, *other) {
            (Figure::Number(cost), Figure::Number(twin)) => cost.value == twin.value,
            (Figure::None, Figure::None) => true,
            _ => false,
        }
    }
}

impl Eq for Figure {
    ghost laws = { Prim.search (comparing, rules) };
}

impl Add for Figure {
    type Output = Figure;

    ghost add_gives = { λ left right sum. rank sum ≡ cut (rank left + rank right) };

    // None if either is none or the sum exceeds the ceiling.
    fn add(self, other: Figure) -> Figure {
        match (self.number(), other.number()) {
            (Some(left), Some(right)) => Figure::of(left + right),
            _ => Figure::None,
        }
    }
}

impl fmt::Display for Figure {
    ghost output = { λ figure. Some (printed figure) };

    fn fmt<W: fmt::Write>(&self, f: &mut fmt::Formatter<W>) -> fmt::Result {
        match self.number() {
            Some(number) => write!(f, "{number}"),
            None => write!(f, "none"),
        }
    }
}

// What the comparisons of figures say of their ranks. `==` tells whether two are one figure.
pub fn comparisons()
    ensures ranks { (f g : Figure) → ⟦<Figure as PartialEq>⟧.eq f g ≡ nat_eq (rank f) (rank g) }
    ensures same { (f g : Figure) → Decides (⟦<Figure as PartialEq>⟧.eq f g) (f ≡ g) }
    ensures smaller { (f g : Figure) → rank (ord_min ⟦<Figure as Ord>⟧.cmp f g) ≡ min (rank f) (rank g) }
    ensures larger { (f g : Figure) → rank (ord_max ⟦<Figure as Ord>⟧.cmp f g) ≡ max (rank f) (rank g) }
{}
