// Numbers and figures in bytes.
ghost use Rattle.std.specs.Prelude.{◌≡◌};
ghost use Rattle.wire.specs.Numbers.{two, figure_bytes};

use figure::figure::Figure;

// The two low bytes of a number.
pub(crate) fn two_bytes(number: usize) -> [u8; 2]
    ensures { result ≡ two number }
{
    [(number / 256 % 256) as u8, (number % 256) as u8]
}

// None is all ones.
pub(crate) fn figure_bytes(figure: Figure) -> [u8; 4]
    ensures { result ≡ figure_bytes figure }
{
    figure.number().unwrap_or(u32::MAX).to_be_bytes()
}
