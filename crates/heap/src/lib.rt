// A queue that is a binary heap: put, re-key, drop and take go up or down one path of it.
#![tactic(auto)]

pub mod heap;
mod sift;
mod slots;
mod store;
