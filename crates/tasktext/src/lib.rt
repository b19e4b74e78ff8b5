// Task texts: lines taken by a load, a load closed into a task, a whole text read.
#![tactic(auto)]

mod bytes;
mod frame;
pub mod load;
pub mod taking;
pub mod text;
mod whole;
