// Failures of the layers below.
ghost use Rattle.std.specs.Prelude.{◌≡◌};
ghost use Rattle.c_interface.specs.Failures.{of_reading, of_calls};
ghost use Rattle.c_interface.specs.declared.why.Failure.TheVariants.{Choice, Memory};

use crate::why::Failure;
use choices::choice::UnknownChoice;
use std::alloc::AllocError;
use textfault::fault::ReadFault;
use wire::fault::CallsFault;

impl From<ReadFault> for Failure {
    ghost from_gives = { λ e r. r ≡ of_reading e };

    fn from(e: ReadFault) -> Failure {
        match e {
            ReadFault::Text(fault) => Failure::Text(fault),
            ReadFault::Memory => Failure::Memory,
        }
    }
}

impl From<CallsFault> for Failure {
    ghost from_gives = { λ e r. r ≡ of_calls e };

    fn from(e: CallsFault) -> Failure {
        match e {
            CallsFault::Malformed => Failure::Calls,
            CallsFault::Memory => Failure::Memory,
        }
    }
}

impl From<AllocError> for Failure {
    ghost from_gives = { λ _ r. r ≡ Memory };

    fn from(_e: AllocError) -> Failure {
        Failure::Memory
    }
}

impl From<UnknownChoice> for Failure {
    ghost from_gives = { λ _ r. r ≡ Choice };

    fn from(_e: UnknownChoice) -> Failure {
        Failure::Choice
    }
}
