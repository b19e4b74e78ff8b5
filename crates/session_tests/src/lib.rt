// Tests of sessions: both rules, both queues, against tables worked out by a plain loop.
#![tactic(auto)]

#[cfg(test)]
mod drive;
#[cfg(test)]
mod made;
#[cfg(test)]
mod plain;
#[cfg(test)]
mod small;
