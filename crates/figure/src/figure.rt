// A figure is a whole number from 0 to 2,000,000, or none. None is above every number.
// No Option, whose None is below every number: minima and orders would each have to be turned by hand.
use crate::cost::Cost;

// None stands last: the derived order goes by the place in this list, then by the number. `==` stands in values.
#[derive(Debug, Clone, Copy, Default, PartialOrd, Ord)]
pub enum Figure {
    Number(Cost),
    #[default]
    None,
}
