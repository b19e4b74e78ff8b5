// Indexes over a task: from a fact to the actions that add it, and from an item to the items whose equations read it.
#![tactic(auto)]

mod build;
pub mod links;
mod lists;
pub mod reading;
