// The faults of a task text, in layers.
#![tactic(auto)]

pub mod fault;
pub mod shown;
mod words;
