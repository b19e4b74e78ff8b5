// Best-first search for a shortest plan, over any estimator and any queue keyed by pairs.
#![tactic(auto)]

mod board;
mod open;
mod queueing;
mod run;
pub mod search;
mod trace;
