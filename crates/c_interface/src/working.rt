// Calls in bytes, worked on a session, and the answers in bytes.
ghost use Rattle.c_interface.specs.Delivering.{bytes_of};
ghost use Rattle.c_interface.specs.Working.{Works};

use crate::why::Failure;
use choices::answering::answer;
use choices::choice::{QueueChoice, RuleChoice};
use std::alloc::Global;
use tasktext::text::read_task;
use wire::answers::encode_answers;
use wire::calls::decode_calls;

// Opens a session on the text's task and works the calls; gives the bytes of the answers.
// The choices come as C gave them, so that an unknown one is told as the failure it is.
pub(crate) fn work(
    heap: Global,
    text: &[u8],
    rule: u8,
    queue: u8,
    calls: &[u8],
) -> Result<Vec<u8>, Failure>
    ensures { Works text.now rule queue calls.now (bytes_of result) }
{
    let cost = RuleChoice::try_from(rule)?;
    let store = QueueChoice::try_from(queue)?;
    let asked = decode_calls(heap, calls)?;
    let task = read_task(heap, text)?;
    let answers = answer(heap, task, cost, store, asked.as_slice())?;
    let bytes = encode_answers(heap, answers.as_slice())?;
    Ok(bytes)
}
