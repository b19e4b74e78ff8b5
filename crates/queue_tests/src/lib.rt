// Both queues worked through the same scripts of calls beside a plain list.
#![tactic(auto)]

#[cfg(test)]
mod model;
#[cfg(test)]
mod script;
#[cfg(test)]
mod tests;
