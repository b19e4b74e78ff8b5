// What the programs have in common: items in words, and the task text on standard input.
#![tactic(auto)]

pub mod input;
pub mod item;
