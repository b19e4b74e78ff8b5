// The table of figures, worked out from nothing, and the goal figure.
#![tactic(auto)]

mod equations;
pub mod goal;
mod side;
mod sweep;
pub mod table;
