// Items in words.
use std::fmt;

// An item of a task with so many facts: the facts come first, then the actions.
#[derive(Clone, Copy)]
pub struct Item {
    pub facts: usize,
    pub number: usize,
}

impl fmt::Display for Item {
    fn fmt<W: fmt::Write>(&self, f: &mut fmt::Formatter<W>) -> fmt::Result {
        match self.number.checked_sub(self.facts) {
            Some(action) => write!(f, "action {action}"),
            None => write!(f, "fact {}", self.number),
        }
    }
}
