// Bytes put into the caller's buffer.
ghost use Rattle.wire.specs.Placing.{Placing};

use crate::fault::TooShort;

// Puts the bytes at the beginning of the buffer, if there is room for all.
pub fn place(bytes: &[u8], buffer: &mut [u8]) -> Result<usize, TooShort>
    ensures { Placing bytes.now buffer.old buffer.new result }
{
    let size = bytes.len();
    if buffer.len() < size {
        return Err(TooShort);
    }
    buffer[0..size].copy_from_slice(bytes);
    Ok(size)
}
