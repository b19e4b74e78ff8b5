// Texts written for the tests, and what is expected of reading them.
use std::alloc::Global;
use std::process::Abort;
use std::test::Fail;
use tasktext::text::read_task;
use textfault::fault::{LoadFault, ReadFault};

// The lines of a small task: three facts, action 0 leads from 0 to 1, action 1 from 1 to 2, each deleting what it needs.
pub const HEAD: &[u8] = b"01030002\n";

pub const FIRST: &[u8] = b"02010101000100\n";

pub const SECOND: &[u8] = b"02010101010201\n";

pub const GOAL: &[u8] = b"030102\n";

pub const START: &[u8] = b"040100\n";

pub const END: &[u8] = b"05\n";

pub fn lines() -> [&'static [u8]; 6] {
    [HEAD, FIRST, SECOND, GOAL, START, END]
}

pub fn add(text: &mut Vec<u8>, part: &[u8]) -> Result<(), Fail> {
    Ok(text.extend_from_slice(part)?)
}

// The digits of a byte.
pub fn add_byte(text: &mut Vec<u8>, byte: u8) -> Result<(), Fail> {
    let digits = b"0123456789abcdef";
    text.push(digits[(byte / 16) as usize])?;
    text.push(digits[(byte % 16) as usize])?;
    Ok(())
}

// The same character over and over, then an end.
pub fn run_of(heap: Global, character: u8, count: usize, end: &[u8]) -> Result<Vec<u8>, Fail> {
    let mut text = vec![in heap; character; count]?;
    add(&mut text, end)?;
    Ok(text)
}

// A fault as it is told.
#[derive(Clone, Copy, Debug, PartialEq, Eq)]
pub struct Told {
    number: u8,
    line: u16,
    place: u16,
}

impl Told {
    pub fn of(number: u8, line: u16, place: u16) -> Told {
        Told {
            number,
            line,
            place,
        }
    }
}

impl From<LoadFault> for Told {
    fn from(fault: LoadFault) -> Told {
        Told::of(fault.number(), fault.place().line, fault.place().at)
    }
}

// Reading the text gives this fault.
pub fn gives(rt: &impl Abort, heap: Global, text: &[u8], fault: Told) -> Result<(), Fail> {
    match read_task(heap, text) {
        Ok(_) => Err(Fail::new("a damaged text was accepted")),
        Err(ReadFault::Memory) => Err(Fail::new("no memory")),
        Err(ReadFault::Text(given)) => {
            assert_eq!(rt; Told::from(given), fault);
            Ok(())
        }
    }
}

// A damaged line, or a text's end, and the fault that it gives in that line.
#[derive(Clone, Copy)]
pub struct Damage<'a> {
    damaged: &'a [u8],
    fault: Told,
}

pub fn at(line: u16, damaged: &[u8], number: u8, place: u16) -> Damage<'_> {
    Damage {
        damaged,
        fault: Told::of(number, line, place),
    }
}

impl Damage<'_> {
    // The small task's text up to the line, then what is damaged.
    fn begun(&self, heap: Global) -> Result<Vec<u8>, Fail> {
        let mut text = Vec::new(heap);
        for line in lines()
            .iter()
            .take((self.fault.line as usize).saturating_sub(1))
        {
            add(&mut text, line)?;
        }
        add(&mut text, self.damaged)?;
        Ok(text)
    }

    // It gives its fault where the lines after it are kept.
    pub fn instead(&self, rt: &impl Abort, heap: Global) -> Result<(), Fail> {
        let mut text = self.begun(heap)?;
        for line in lines().iter().skip(self.fault.line as usize) {
            add(&mut text, line)?;
        }
        gives(rt, heap, &text, self.fault)
    }

    // It gives its fault where the text ends with it.
    pub fn cut(&self, rt: &impl Abort, heap: Global) -> Result<(), Fail> {
        gives(rt, heap, &self.begun(heap)?, self.fault)
    }
}
