// Cost rules: how the figures of an action's preconditions, or of the goal, make one figure.
#![tactic(auto)]

pub mod additive;
pub mod largest;
pub mod members;
pub mod rule;
