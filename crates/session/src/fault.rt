// What a session refuses.
ghost use Rattle.std.specs.Prelude.{◌≡◌, Some};
ghost use Rattle.session.specs.Refusals.{number_of, worded};

use std::fmt;

// Why a call is refused. None of them has values.
#[derive(Debug, Clone, Copy, PartialEq, Eq)]
pub enum SessionFault {
    // The task has no such fact or item.
    Unknown,
    // Figures are told only when settled.
    Unsettled,
    // The docket has fewer than two rows for each item.
    DocketShort,
    // The queue is not empty, or has no room for every item.
    QueueUnfit,
    // Memory is wanting: only an opening, or a list of calls before its first, can come to this.
    Memory,
}

impl SessionFault {
    // The number under which it is known; want of memory has none.
    pub fn number(self) -> Option<u8>
        ensures { result ≡ number_of self }
    {
        match self {
            SessionFault::Unknown => Some(8),
            SessionFault::Unsettled => Some(9),
            SessionFault::DocketShort => Some(10),
            SessionFault::QueueUnfit => Some(11),
            SessionFault::Memory => None,
        }
    }
}

impl fmt::Display for SessionFault {
    ghost output = { λ fault. Some (worded fault) };

    fn fmt<W: fmt::Write>(&self, f: &mut fmt::Formatter<W>) -> fmt::Result {
        match self {
            SessionFault::Unknown => write!(f, "refused 8: no such fact or item"),
            SessionFault::Unsettled => write!(f, "refused 9: not settled"),
            SessionFault::DocketShort => write!(f, "refused 10: the docket is short"),
            SessionFault::QueueUnfit => write!(f, "refused 11: the queue does not fit"),
            SessionFault::Memory => write!(f, "refused: no memory"),
        }
    }
}
