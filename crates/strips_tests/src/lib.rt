// Tests of tasks, states and rehearsals, at their limits.
#![tactic(auto)]

#[cfg(test)]
mod limits;
#[cfg(test)]
mod made;
#[cfg(test)]
mod rehearsals;
#[cfg(test)]
mod states;
