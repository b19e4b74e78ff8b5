// The search run on small tasks with known shortest plans.
#![tactic(auto)]

mod misleading;
mod tasks;
#[cfg(test)]
mod tests;
