// What is wrong with a text, by the layer that finds it: the line's digits, its frame, the load, the reading of a whole text.
ghost use Rattle.std.specs.Prelude.{◌≡◌};
ghost use Rattle.textfault.specs.declared.fault.FrameFault.TheVariants.{Line};
ghost use Rattle.textfault.specs.declared.fault.LoadFault.TheVariants.{Frame};
ghost use Rattle.textfault.specs.declared.fault.ReadFault.TheVariants.{Memory, Text};

use std::alloc::AllocError;

// Where a fault is: the line from 1, and the column from 1 or the byte from 0.
#[derive(Clone, Copy, Debug, PartialEq, Eq)]
pub struct Place {
    pub line: u16,
    pub at: u16,
}

// What is wrong with the digits of a line.
#[derive(Clone, Copy, Debug, PartialEq, Eq)]
pub enum LineFault {
    // 1: a bad digit, or the end of an odd or empty line.
    Digit(Place),
    // 2: the 515th digit.
    Long(Place),
    // 7: the text ends inside the line.
    Early(Place),
}

// Why a line is not the frame that is due.
#[derive(Clone, Copy, Debug, PartialEq, Eq)]
pub enum FrameFault {
    // The line's digits are at fault.
    Line(LineFault),
    // 3: another kind of frame is due, or none.
    NotDue(Place),
    // 4: the length is not as the kind and the counts say.
    Length(Place),
    // 5: a number is out of bounds.
    Bounds(Place),
    // 6: a list does not rise.
    Rising(Place),
}

impl From<LineFault> for FrameFault {
    ghost from_gives = { λ e r. r ≡ Line e };

    fn from(e: LineFault) -> FrameFault {
        FrameFault::Line(e)
    }
}

// Why a load takes no line, or is not closed.
#[derive(Clone, Copy, Debug, PartialEq, Eq)]
pub enum LoadFault {
    // The next line is not the frame that is due.
    Frame(FrameFault),
    // 7: the end frame was not taken.
    Early(Place),
}

impl From<FrameFault> for LoadFault {
    ghost from_gives = { λ e r. r ≡ Frame e };

    fn from(e: FrameFault) -> LoadFault {
        LoadFault::Frame(e)
    }
}

// Why a whole text is not read.
#[derive(Clone, Copy, Debug, PartialEq, Eq)]
pub enum ReadFault {
    // No load could be begun.
    Memory,
    // The text is at fault.
    Text(LoadFault),
}

impl From<AllocError> for ReadFault {
    ghost from_gives = { λ _ r. r ≡ Memory };

    fn from(_e: AllocError) -> ReadFault {
        ReadFault::Memory
    }
}

impl From<LoadFault> for ReadFault {
    ghost from_gives = { λ e r. r ≡ Text e };

    fn from(e: LoadFault) -> ReadFault {
        ReadFault::Text(e)
    }
}
