// The digits that a text begins with.
ghost use Rattle.std.specs.Prelude.{◌≡◌, ◌+◌, ◌<◌, ◌≤◌, false, length, slice_index};
ghost use Rattle.textspec.specs.Hex.{is_digit, DigitsBefore};

// At each byte's place the byte itself if it is a digit, and a dot if not: sixteen bytes a row.
static DIGITS: [u8; 256] = *b"\
    ................\
    ................\
    ................\
    0123456789......\
    ................\
    ................\
    .abcdef.........\
    ................\
    ................\
    ................\
    ................\
    ................\
    ................\
    ................\
    ................\
    ................";

// By a table, since this is asked of each byte of a text.
pub(crate) fn is_digit(c: u8) -> bool
    ensures { result ≡ is_digit c }
{
    DIGITS[c as usize] != b'.'
}

// How many digits the text begins with, or 514 if there are more.
pub(crate) fn count_digits(text: &[u8]) -> usize
    ensures few { result ≤ 514 }
    ensures within { result ≤ length text.now }
    ensures before { DigitsBefore text.now (result + 1) }
    ensures stop { result < 514 → is_digit (slice_index text.now result) ≡ false }
{
    text.iter().take(514).take_while(|c| is_digit(**c)).count()
}
