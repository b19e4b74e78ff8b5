// A search on a text's task, and its result in bytes.
ghost use Rattle.c_interface.specs.Delivering.{bytes_of};
ghost use Rattle.c_interface.specs.Searching.{Searches};

use crate::why::Failure;
use choices::choice::{EstimatorChoice, QueueChoice};
use choices::finding::find;
use std::alloc::Global;
use strips::state::State;
use tasktext::text::read_task;
use wire::searches::encode_search;

// Searches a plan of the text's task from the state of these facts; gives the bytes of the result.
// The choices come as C gave them, so that an unknown one is told as the failure it is.
pub(crate) fn search(
    heap: Global,
    text: &[u8],
    start: &[u8],
    rows: usize,
    estimator: u8,
    queue: u8,
) -> Result<Vec<u8>, Failure>
    ensures { Searches text.now start.now rows estimator queue (bytes_of result) }
{
    let estimate = EstimatorChoice::try_from(estimator)?;
    let store = QueueChoice::try_from(queue)?;
    let task = read_task(heap, text)?;
    let state = State::of(start);
    let found = find(heap, &task, &state, rows, estimate, store)?;
    let bytes = encode_search(heap, found.result, found.steps.as_slice())?;
    Ok(bytes)
}
