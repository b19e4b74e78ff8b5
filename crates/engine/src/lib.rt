// The whole law in one call: a session worked through any list of calls, and a search.
#![tactic(auto)]

pub mod by_session;
pub mod halted;
pub mod whole;
pub mod worked;
