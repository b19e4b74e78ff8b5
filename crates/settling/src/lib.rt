// Held figures: what a session holds of each item, the right-hand sides of the equations, and the queue of the inconsistent items.
#![tactic(auto)]

pub mod base;
pub mod held;
pub mod opening;
pub mod reading;
pub mod row;
mod sides;
pub mod turns;
