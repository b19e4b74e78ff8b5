// Figures: how much an item costs, or that it is out of reach.
#![tactic(auto)]

pub mod cost;
pub mod figure;
pub mod values;
