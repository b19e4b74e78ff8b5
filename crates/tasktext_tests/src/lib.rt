// Tests of task texts: damaged ones, ones at the limits, and loads; and of faults in words.
#![tactic(auto)]

#[cfg(test)]
mod digits;
#[cfg(test)]
mod kinds;
#[cfg(test)]
mod lengths;
#[cfg(test)]
mod limits;
#[cfg(test)]
mod loads;
#[cfg(test)]
mod numbers;
#[cfg(test)]
mod words;
#[cfg(test)]
mod written;
