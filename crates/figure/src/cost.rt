// A whole number that a figure can be.
ghost use Rattle.std.specs.Prelude.{◌≤◌};

// From 0 to 2,000,000.
#[derive(Debug, Clone, Copy, PartialEq, Eq, PartialOrd, Ord)]
pub struct Cost {
    pub(crate) value: u32,
    ghost within: { value ≤ 2000000 },
}
