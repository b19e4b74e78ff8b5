// Calls, answers and search results in bytes.
#![tactic(auto)]

pub mod answers;
pub mod calls;
pub mod fault;
mod numbers;
pub mod placing;
pub mod searches;
