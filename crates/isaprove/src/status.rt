//! How a run ends.
ghost use Rattle.std.specs.Prelude.{◌≡◌};
ghost use Rattle.isaprove.specs.declared.status.Stop.TheVariants.{Memory, Write};
ghost use Rattle.isaprove.specs.Run.{code_of};
ghost use Rattle.isaprove.specs.Does.{stop_code};

use crate::failure::Failure;
use isa_io::WriteFailed;
use std::alloc::{AllocError, AllocFailed};

/// How a run ends before its last command.
#[derive(Clone, Copy)]
pub enum Status {
    /// A command's method gave no state.
    Failed(Failure),
    /// A text was refused, or a file was too long.
    Refused,
    /// A file could not be read.
    ReadFault,
    /// The words have no reading.
    Usage,
}

/// Why a run goes on no further.
#[derive(Clone, Copy)]
pub enum Stop {
    Ended(Status),
    Memory,
    Write,
}

impl Status {
    /// The number that tells it.
    pub fn code(self) -> u8
        ensures { result ≡ code_of self }
    {
        match self {
            Status::Failed(failure) => failure.code(),
            Status::Refused => 3,
            Status::ReadFault => 4,
            Status::Usage => 64,
        }
    }
}

impl Stop {
    /// The number that tells it.
    pub fn code(self) -> u8
        ensures { result ≡ stop_code self }
    {
        match self {
            Stop::Ended(status) => status.code(),
            Stop::Memory => 6,
            Stop::Write => 5,
        }
    }
}

impl From<AllocError> for Stop {
    ghost from_gives = { λ _ e. e ≡ Memory };

    fn from(_: AllocError) -> Stop {
        Stop::Memory
    }
}

impl<T: Drop> From<AllocFailed<T>> for Stop {
    ghost from_gives = { λ _ e. e ≡ Memory };

    fn from(_: AllocFailed<T>) -> Stop {
        Stop::Memory
    }
}

impl From<WriteFailed> for Stop {
    ghost from_gives = { λ _ e. e ≡ Write };

    fn from(_: WriteFailed) -> Stop {
        Stop::Write
    }
}
