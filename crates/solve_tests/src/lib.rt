// Tests of the table worked out from nothing.
#![tactic(auto)]

#[cfg(test)]
mod made;
#[cfg(test)]
mod tables;
