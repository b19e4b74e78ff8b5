// Planning: both goal figures of a task's start, and a shortest plan.
#![tactic(auto)]

mod asking;
mod estimating;
mod lending;
mod lent;
pub mod planned;
pub mod planning;
mod searching;
