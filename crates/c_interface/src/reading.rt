// Reading a text.
ghost use Rattle.c_interface.specs.Reading.{Reads};

use crate::structs::{Sizes, TextFault};
use std::alloc::Global;
use tasktext::text::read_task;
use textfault::fault::ReadFault;

// How many facts and actions the text's task has, or the text's first fault.
pub(crate) fn read(heap: Global, text: &[u8]) -> Sizes
    ensures { Reads text.now result }
{
    match read_task(heap, text) {
        Ok(task) => Sizes {
            status: 0,
            fault: TextFault::default(),
            facts: task.facts(),
            actions: task.action_count() as u16,
        },
        Err(ReadFault::Text(fault)) => Sizes {
            status: 1,
            fault: fault.into(),
            facts: 0,
            actions: 0,
        },
        Err(ReadFault::Memory) => Sizes {
            status: 5,
            fault: TextFault::default(),
            facts: 0,
            actions: 0,
        },
    }
}
