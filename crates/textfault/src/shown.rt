// A fault by number, line and place, whatever its layer.
ghost use Rattle.std.specs.Prelude.{◌≡◌};
ghost use Rattle.textfault.specs.Shown.{line_shown, frame_shown, load_shown};

use crate::fault::{FrameFault, LineFault, LoadFault, Place};

impl LineFault {
    fn number(self) -> u8
        ensures { result ≡ (line_shown self).number }
    {
        match self {
            LineFault::Digit(_) => 1,
            LineFault::Long(_) => 2,
            LineFault::Early(_) => 7,
        }
    }

    fn place(self) -> Place
        ensures { (result.line ≡ (line_shown self).line) × (result.at ≡ (line_shown self).place) }
    {
        match self {
            LineFault::Digit(place) | LineFault::Long(place) | LineFault::Early(place) => place,
        }
    }
}

impl FrameFault {
    fn number(self) -> u8
        ensures { result ≡ (frame_shown self).number }
    {
        match self {
            FrameFault::Line(fault) => fault.number(),
            FrameFault::NotDue(_) => 3,
            FrameFault::Length(_) => 4,
            FrameFault::Bounds(_) => 5,
            FrameFault::Rising(_) => 6,
        }
    }

    fn place(self) -> Place
        ensures { (result.line ≡ (frame_shown self).line) × (result.at ≡ (frame_shown self).place) }
    {
        match self {
            FrameFault::Line(fault) => fault.place(),
            FrameFault::NotDue(place)
            | FrameFault::Length(place)
            | FrameFault::Bounds(place)
            | FrameFault::Rising(place) => place,
        }
    }
}

impl LoadFault {
    // The fault's number.
    pub fn number(self) -> u8
        ensures { result ≡ (load_shown self).number }
    {
        match self {
            LoadFault::Frame(fault) => fault.number(),
            LoadFault::Early(_) => 7,
        }
    }

    // The fault's line and place.
    pub fn place(self) -> Place
        ensures { (result.line ≡ (load_shown self).line) × (result.at ≡ (load_shown self).place) }
    {
        match self {
            LoadFault::Frame(fault) => fault.place(),
            LoadFault::Early(place) => place,
        }
    }
}
