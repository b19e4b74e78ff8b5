// What a queue refuses.
ghost use Rattle.std.specs.Prelude.{◌≡◌, Some, codes};
ghost use Rattle.queue.specs.Refusals.{number_of};

use std::error::Error;
use std::fmt;

// A put that the calling program should not have made.
#[derive(Debug, Clone, Copy, PartialEq, Eq)]
pub enum QueueRefusal {
    // The item's number is at or above the queue's capacity.
    Beyond,
}

impl QueueRefusal {
    // The number under which it is known.
    pub fn number(self) -> u8
        ensures { result ≡ number_of self }
    {
        match self {
            QueueRefusal::Beyond => 8,
        }
    }
}

impl fmt::Display for QueueRefusal {
    ghost output = { λ _. Some (codes "an item number at or above the queue's capacity") };

    fn fmt<W: fmt::Write>(&self, f: &mut fmt::Formatter<W>) -> fmt::Result {
        match self {
            QueueRefusal::Beyond => write!(f, "an item number at or above the queue's capacity"),
        }
    }
}

impl Error for QueueRefusal {}
