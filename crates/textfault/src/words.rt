// A fault in words.
use crate::fault::{FrameFault, LineFault, LoadFault, ReadFault};
use std::error::Error;
use std::fmt;

impl LineFault {
    fn meaning(self) -> &'static str {
        match self {
            LineFault::Digit(_) => "here stands no digit of 0-9a-f, or the line ends empty or odd",
            LineFault::Long(_) => "the line has more than 514 digits",
            LineFault::Early(_) => "the text ends inside this line",
        }
    }
}

impl FrameFault {
    // What the place counts.
    fn unit(self) -> &'static str {
        match self {
            FrameFault::Line(_) => "column",
            FrameFault::Length(_) => "bytes",
            FrameFault::NotDue(_) | FrameFault::Bounds(_) | FrameFault::Rising(_) => "byte",
        }
    }

    fn meaning(self) -> &'static str {
        match self {
            FrameFault::Line(fault) => fault.meaning(),
            FrameFault::NotDue(_) => "this kind of frame is not due",
            FrameFault::Length(_) => "the line is not as long as its kind and its counts say",
            FrameFault::Bounds(_) => "this number is out of bounds",
            FrameFault::Rising(_) => "this fact is not above the one before it in its list",
        }
    }
}

impl LoadFault {
    // What the place counts.
    fn unit(self) -> &'static str {
        match self {
            LoadFault::Frame(fault) => fault.unit(),
            LoadFault::Early(_) => "column",
        }
    }

    fn meaning(self) -> &'static str {
        match self {
            LoadFault::Frame(fault) => fault.meaning(),
            LoadFault::Early(_) => "the text ends before the end frame",
        }
    }
}

impl fmt::Display for LoadFault {
    fn fmt<W: fmt::Write>(&self, f: &mut fmt::Formatter<W>) -> fmt::Result {
        let number = self.number();
        let line = self.place().line;
        let unit = self.unit();
        let at = self.place().at;
        let meaning = self.meaning();
        write!(
            f,
            "text refused {number}: line {line}, {unit} {at}: {meaning}"
        )
    }
}

impl Error for LoadFault {}

impl fmt::Display for ReadFault {
    fn fmt<W: fmt::Write>(&self, f: &mut fmt::Formatter<W>) -> fmt::Result {
        match self {
            ReadFault::Memory => write!(f, "no memory for a task"),
            ReadFault::Text(fault) => write!(f, "{fault}"),
        }
    }
}

impl Error for ReadFault {}
