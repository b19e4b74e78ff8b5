// Ordered keys, and queues of items under keys.
#![tactic(auto)]

pub mod drain;
pub mod key;
pub mod queue;
pub mod refusal;
pub mod table;
