// Reading a text line by line: each line's digits as a part of the text, or the line's first fault.
#![tactic(auto)]

mod digits;
pub mod line;
