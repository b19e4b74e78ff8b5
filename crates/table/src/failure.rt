// Why the program ends with status 1.
use std::alloc::AllocError;
use std::io;
use thiserror::Error;
use wording::input::InputError;

#[derive(Debug, Drop, Error)]
pub enum Failure {
    #[error("the only argument is --help; the task text comes from standard input")]
    Arguments,
    #[error("out of memory")]
    Memory,
    #[error("{0}")]
    Io(#[from] io::Error),
}

impl From<AllocError> for Failure {
    fn from(_e: AllocError) -> Failure {
        Failure::Memory
    }
}

impl From<InputError> for Failure {
    fn from(e: InputError) -> Failure {
        match e {
            InputError::Memory => Failure::Memory,
            InputError::Io(e) => Failure::Io(e),
        }
    }
}
