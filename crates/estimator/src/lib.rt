// Estimators: how many steps a plan takes at least.
#![tactic(auto)]

pub mod blind;
pub mod estimator;
pub mod keeping;
pub mod keeps;
pub mod larger;
mod places;
