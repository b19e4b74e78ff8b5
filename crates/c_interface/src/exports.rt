// The functions that C and Rust call. Choices come as numbers, since C has no such enums.
ghost use Rattle.c_interface.specs.Reading.{Reads};
ghost use Rattle.c_interface.specs.Searching.{SearchAnswered};
ghost use Rattle.c_interface.specs.Working.{WorkAnswered};

use crate::delivering::deliver;
use crate::reading::read;
use crate::searching::search;
use crate::structs::{Answered, Sizes};
use crate::working::work;
use std::alloc::Global;

// Reads a task text: how many facts and actions its task has, or the text's first fault.
#[unsafe(no_mangle)]
pub extern "C" fn kettleruby_read(heap: Global, text: &[u8]) -> Sizes
    ensures { Reads text.now result }
{
    read(heap, text)
}

// Opens a session on the text's task and works the calls; the answers come in the buffer.
#[unsafe(no_mangle)]
pub extern "C" fn kettleruby_work(
    heap: Global,
    text: &[u8],
    rule: u8,
    queue: u8,
    calls: &[u8],
    buffer: &mut [u8],
) -> Answered
    ensures { WorkAnswered text.now rule queue calls.now buffer.old buffer.new result }
{
    deliver(work(heap, text, rule, queue, calls), buffer)
}

// Searches a shortest plan of the text's task from the state of these facts; the result comes in the buffer.
#[unsafe(no_mangle)]
pub extern "C" fn kettleruby_search(
    heap: Global,
    text: &[u8],
    start: &[u8],
    rows: usize,
    estimator: u8,
    queue: u8,
    buffer: &mut [u8],
) -> Answered
    ensures { SearchAnswered text.now start.now rows estimator queue buffer.old buffer.new result }
{
    deliver(search(heap, text, start, rows, estimator, queue), buffer)
}
