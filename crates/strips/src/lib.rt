// Tasks and states.
#![tactic(auto)]

pub mod action;
mod fact_set;
pub mod fault;
pub mod list;
pub mod state;
pub mod task;
