// The bytes that a line states.
ghost use Rattle.std.specs.Prelude.{◌≡◌, ◌<◌, ◌≤◌, true, length, slice_index};
ghost use Rattle.textspec.specs.Hex.{is_digit, value};
ghost use Rattle.hexline.specs.Lines.{bytes_of};

use hexline::line::Line;

// What the bytes from 48 to 102 stand for as digits, sixteen a row; 0 for those that are none.
static VALUES: [u8; 55] = *b"\
    \x00\x01\x02\x03\x04\x05\x06\x07\x08\x09\x00\x00\x00\x00\x00\x00\
    \x00\x00\x00\x00\x00\x00\x00\x00\x00\x00\x00\x00\x00\x00\x00\x00\
    \x00\x00\x00\x00\x00\x00\x00\x00\x00\x00\x00\x00\x00\x00\x00\x00\
    \x00\x0a\x0b\x0c\x0d\x0e\x0f";

// By a table, since this is asked four times for each byte of a text.
fn value(c: u8) -> u8
    requires { is_digit c ≡ true }
    ensures { (result ≡ value c) × (result < 16) }
{
    VALUES[c as usize - 48]
}

// How many bytes the line states.
pub(crate) fn len(line: &Line<'_>) -> usize
    ensures size { result ≡ length (bytes_of line.now) }
    ensures some { 0 < result }
    ensures few { result ≤ 257 }
{
    line.digits().len() / 2
}

pub(crate) fn byte(line: &Line<'_>, i: usize) -> u8
    requires { i < length (bytes_of line.now) }
    ensures { result ≡ slice_index (bytes_of line.now) i }
{
    let digits = line.digits();
    value(digits[2 * i]) * 16 + value(digits[2 * i + 1])
}
