// Rehearsals: a plan is tried out on a live state, which is left as it was.
#![tactic(auto)]

mod guard;
pub mod rehearse;
pub mod verdict;
