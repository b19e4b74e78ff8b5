// Sessions and searches over a rule, queues and an estimator that are chosen at run time.
#![tactic(auto)]

pub mod answering;
pub mod choice;
pub mod finding;
pub mod found;
mod query;
