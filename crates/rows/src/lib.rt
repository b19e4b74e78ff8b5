// The rows of a search, and a look-up of states among them.
#![tactic(auto)]

mod branch;
pub mod lookup;
pub mod making;
pub mod row;
pub mod seat;
