// Reading a whole text.
ghost use Rattle.std.specs.Prelude.{◌≡◌, []};
ghost use Rattle.tasktext.specs.Loads.{taken};
ghost use Rattle.tasktext.specs.Reading.{Reading, ReadingInto};

use crate::load::Load;
use hexline::line::Reader;
use std::alloc::Global;
use strips::task::Task;
use textfault::fault::{LoadFault, ReadFault};

// Reads the text into a load that has taken no line, and closes it; after a fault the load is let go.
fn read_into(mut load: Load, text: &[u8]) -> Result<Task, LoadFault>
    requires { taken load ≡ [] }
    ensures { ReadingInto text.now result }
{
    let mut reader = Reader::new(text);
    while !reader.at_end() {
        if let Err(fault) = load.take_line(&mut reader) {
            load.abandon();
            return Err(fault);
        }
    }
    load.close().map_err(|(load, fault)| {
        load.abandon();
        fault
    })
}

// The task that the text states, or the text's first fault.
pub fn read_task(heap: Global, text: &[u8]) -> Result<Task, ReadFault>
    ensures { Reading text.now result }
{
    let load = Load::begin(heap)?;
    Ok(read_into(load, text)?)
}
