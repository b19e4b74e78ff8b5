// What can be wrong with bytes and buffers.
ghost use Rattle.std.specs.Prelude.{◌≡◌};
ghost use Rattle.wire.specs.declared.fault.CallsFault.TheVariants.{Memory};

use std::alloc::AllocFailed;

// Why bytes are not read as calls.
#[derive(Clone, Copy)]
pub enum CallsFault {
    // They are the bytes of no calls.
    Malformed,
    Memory,
}

impl<T: Drop> From<AllocFailed<T>> for CallsFault {
    ghost from_gives = { λ _ r. r ≡ Memory };

    fn from(_e: AllocFailed<T>) -> CallsFault {
        CallsFault::Memory
    }
}

// The buffer has less room than the bytes need.
#[derive(Clone, Copy)]
pub struct TooShort;
