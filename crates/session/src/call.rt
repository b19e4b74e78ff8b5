// Calls of a session and their answers, as values.
use crate::fault::SessionFault;
use figure::figure::Figure;
use settling::row::DocketRow;
use std::fmt;

// What a session is asked.
#[derive(Debug, Clone, Copy, PartialEq, Eq)]
pub enum Call {
    Enter(u8),
    Strike(u8),
    // With a docket of so many rows.
    Settle(usize),
    Figure(usize),
    Goal,
}

impl fmt::Display for Call {
    ghost use Rattle.std.specs.Prelude.{Some};
    ghost use Rattle.session.specs.Texts.{named};

    ghost output = { λ call. Some (named call) };

    fn fmt<W: fmt::Write>(&self, f: &mut fmt::Formatter<W>) -> fmt::Result {
        match self {
            Call::Enter(fact) => write!(f, "enter {fact}"),
            Call::Strike(fact) => write!(f, "strike {fact}"),
            Call::Settle(_) => write!(f, "settle"),
            Call::Figure(item) => write!(f, "figure {item}"),
            Call::Goal => write!(f, "goal figure"),
        }
    }
}

// What it answers.
#[derive(Debug, PartialEq, Eq, Drop)]
pub enum Answer {
    // Whether the state changed.
    Told(bool),
    // The rows of the docket.
    Wrote(Vec<DocketRow>),
    Is(Figure),
    Refused(SessionFault),
}
