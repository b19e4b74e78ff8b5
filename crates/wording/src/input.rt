// Reading the task that a program is asked about.
use std::alloc::Global;
use std::io;
use std::io::Read;
use strips::task::Task;
use tasktext::text::read_task;
use textfault::fault::{LoadFault, ReadFault};
use thiserror::Error;

// Why neither a task nor a fault of its text is known.
#[derive(Debug, Drop, Error)]
pub enum InputError {
    #[error("no memory for a task")]
    Memory,
    #[error("{0}")]
    Io(#[from] io::Error),
}

// The task that the text states, or the text's first fault.
pub fn task_of(heap: Global, text: &[u8]) -> Result<Result<Task, LoadFault>, InputError> {
    match read_task(heap, text) {
        Ok(task) => Ok(Ok(task)),
        Err(ReadFault::Text(fault)) => Ok(Err(fault)),
        Err(ReadFault::Memory) => Err(InputError::Memory),
    }
}

// The same of the text on standard input.
pub fn task_on_input(rt: &HostRuntime) -> Result<Result<Task, LoadFault>, InputError> {
    let mut text = Vec::new(rt.alloc());
    rt.stdin().read_to_end(&mut text)?;
    task_of(rt.alloc(), &text)
}
