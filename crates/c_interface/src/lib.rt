// The engine for C and Rust: byte slices and numbers in, a status and bytes out.
#![tactic(auto)]

mod delivering;
mod exports;
pub mod failure;
mod reading;
mod searching;
pub mod structs;
pub mod why;
mod working;
