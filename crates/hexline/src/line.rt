// A line of the text, and the reader that walks over the lines.
ghost use Rattle.std.specs.Prelude.{◌≡◌, ◌%◌, ◌<◌, ◌≤◌, true, length, ◌==◌};
ghost use Rattle.textspec.specs.Hex.{digits_only};

use crate::digits::{count_digits, is_digit};
use textfault::fault::{LineFault, Place};

// A line's number, and its digits as they stand in the text: two a byte, for 1 to 257 bytes.
#[derive(Clone, Copy)]
pub struct Line<'a> {
    number: u16,
    digits: &'a [u8],
    pub ghost hex: { digits_only digits.now ≡ true },
    pub ghost even: { length digits.now % 2 ≡ 0 },
    pub ghost some: { 0 < length digits.now },
    pub ghost few: { length digits.now ≤ 514 },
}

impl<'a> Line<'a> {
    // The number of the line.
    pub fn number(&self) -> u16
        ensures { result ≡ self.now.number }
    {
        self.number
    }

    // The line's digits, where they stand in the text.
    pub fn digits(&self) -> &'a [u8]
        ensures { result.now ≡ self.now.digits.now }
    {
        self.digits
    }
}

// The text that is still to be read, and where reading stands: the line's number, and the column from 1.
#[derive(Clone, Copy)]
pub struct Reader<'a> {
    text: &'a [u8],
    line: u16,
    column: u16,
}

impl<'a> Reader<'a> {
    ghost use Rattle.hexline.specs.Lines.{left, ReadLine};

    // Begins at the text's first line.
    pub fn new(text: &'a [u8]) -> Reader<'a>
        ensures { left result ≡ text.now }
    {
        Reader {
            text,
            line: 1,
            column: 1,
        }
    }

    // Whether no text is left.
    pub fn at_end(&self) -> bool
        ensures { result ≡ (length (left self.now) == 0) }
    {
        self.text.is_empty()
    }

    fn place(&self) -> Place
        ensures { (result.line ≡ self.now.line) × (result.at ≡ self.now.column) }
    {
        Place {
            line: self.line,
            at: self.column,
        }
    }

    // The next line, as the one of this number, or its first fault. A refused line stays the next one.
    pub fn next_line(&mut self, number: u16) -> Result<Line<'a>, LineFault>
        ensures { ReadLine number (left self.old) (left self.new) result }
    {
        let text = self.text;
        let count = count_digits(text);
        self.line = number;
        self.column = count as u16 + 1;
        match text.get(count) {
            None => Err(LineFault::Early(self.place())),
            Some(b'\n') if count > 0 && count % 2 == 0 => {
                self.text = &text[count + 1..];
                self.column = 1;
                Ok(Line {
                    number,
                    digits: &text[..count],
                })
            }
            Some(c) if is_digit(*c) => Err(LineFault::Long(self.place())),
            Some(_) => Err(LineFault::Digit(self.place())),
        }
    }
}
