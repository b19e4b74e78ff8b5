// Sessions: the figures of a task's items, kept up to date as facts come and go.
#![tactic(auto)]

pub mod call;
pub mod calls;
pub mod fault;
pub mod open;
pub mod questions;
mod room;
pub mod session;
pub mod unopened;
pub mod work;
