// Answers put into the caller's buffer, and told by status.
ghost use Rattle.std.specs.Prelude.{◌≡◌};
ghost use Rattle.c_interface.specs.Delivering.{fault_of, told, failed, bytes_of, Delivered};

use crate::structs::{Answered, TextFault};
use crate::why::Failure;
use textfault::fault::LoadFault;
use wire::placing::place;

impl From<LoadFault> for TextFault {
    ghost from_gives = { λ e r. r ≡ fault_of e };

    fn from(fault: LoadFault) -> TextFault {
        let at = fault.place();
        TextFault {
            number: fault.number(),
            line: at.line,
            place: at.at,
        }
    }
}

// A status is a number, since C has no such enums.
fn told(status: u8, length: usize) -> Answered
    ensures { result ≡ told status length }
{
    Answered {
        status,
        fault: TextFault::default(),
        length,
    }
}

impl From<Failure> for Answered {
    ghost from_gives = { λ e r. r ≡ failed e };

    fn from(failure: Failure) -> Answered {
        match failure {
            Failure::Text(fault) => Answered {
                status: 1,
                fault: fault.into(),
                length: 0,
            },
            Failure::Calls => told(2, 0),
            Failure::Choice => told(3, 0),
            Failure::Memory => told(5, 0),
        }
    }
}

// Puts the answer at the beginning of the buffer, if it fits.
pub(crate) fn deliver(made: Result<Vec<u8>, Failure>, buffer: &mut [u8]) -> Answered
    ensures { Delivered (bytes_of made) buffer.old buffer.new result }
{
    match made {
        Ok(bytes) => match place(bytes.as_slice(), buffer) {
            Ok(length) => told(0, length),
            Err(_) => told(4, 0),
        },
        Err(failure) => failure.into(),
    }
}
