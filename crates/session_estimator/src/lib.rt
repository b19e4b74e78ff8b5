// A session under the max rule as an estimator.
#![tactic(auto)]

pub mod estimate;
mod following;
pub mod making;
pub mod session_estimator;
