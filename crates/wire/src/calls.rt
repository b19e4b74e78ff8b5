// Calls of a session, read from bytes.
ghost use Rattle.std.specs.Option.{MatchOption};
ghost use Rattle.session.specs.Works.{call_of};
ghost use Rattle.wire.specs.Calls.{Begins, Unreadable};
ghost use Rattle.wire.specs.Decoding.{Decoded};

use crate::fault::CallsFault;
use session::call::Call;
use std::alloc::Global;

// The call that the bytes begin with, and the bytes behind it.
fn first_call(bytes: &[u8]) -> Option<(Call, &[u8])>
    ensures { MatchOption result (Unreadable bytes.now) (λ b. Begins bytes.now (call_of b.0) b.1.now) }
{
    match bytes {
        [1, fact, rest @ ..] => Some((Call::Enter(*fact), rest)),
        [2, fact, rest @ ..] => Some((Call::Strike(*fact), rest)),
        [3, high, low, rest @ ..] => Some((
            Call::Settle(usize::from(u16::from_be_bytes([*high, *low]))),
            rest,
        )),
        [4, high, low, rest @ ..] => Some((
            Call::Figure(usize::from(u16::from_be_bytes([*high, *low]))),
            rest,
        )),
        [5, rest @ ..] => Some((Call::Goal, rest)),
        _ => None,
    }
}

// The calls that the bytes are of.
pub fn decode_calls(heap: Global, bytes: &[u8]) -> Result<Vec<Call>, CallsFault>
    ensures { Decoded bytes.now result }
{
    let mut calls = Vec::new(heap);
    let mut rest = bytes;
    while !rest.is_empty() {
        let Some((call, behind)) = first_call(rest) else {
            return Err(CallsFault::Malformed);
        };
        calls.push(call)?;
        rest = behind;
    }
    Ok(calls)
}
