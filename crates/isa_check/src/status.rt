//! How a run ends.
ghost use Rattle.std.specs.Prelude.{◌≡◌};
ghost use Rattle.isa_check.specs.declared.status.Stop.TheVariants.{Memory, Write};
ghost use Rattle.isa_check.specs.Does.{code_of, stop_code};

use isa_io::WriteFailed;
use std::alloc::{AllocError, AllocFailed};

/// How a run ends that does not accept.
#[derive(Clone, Copy, Debug, PartialEq, Eq)]
pub enum Status {
    /// The certificate is refused.
    Refused,
    /// The file is too long.
    TooLong,
    ReadFault,
    Usage,
}

/// Why a run goes on no further.
#[derive(Clone, Copy, Debug, PartialEq, Eq)]
pub enum Stop {
    Ended(Status),
    Memory,
    Write,
}

impl Status {
    /// The number that tells it.
    pub fn code(self) -> u8
        ensures { result ≡ code_of self }
    {
        match self {
            Status::Refused => 1,
            Status::TooLong => 3,
            Status::ReadFault => 4,
            Status::Usage => 64,
        }
    }
}

impl Stop {
    /// The number that tells it.
    pub fn code(self) -> u8
        ensures { result ≡ stop_code self }
    {
        match self {
            Stop::Ended(status) => status.code(),
            Stop::Memory => 6,
            Stop::Write => 5,
        }
    }
}

impl From<AllocError> for Stop {
    ghost from_gives = { λ _ e. e ≡ Memory };

    fn from(_: AllocError) -> Stop {
        Stop::Memory
    }
}

impl<T: Drop> From<AllocFailed<T>> for Stop {
    ghost from_gives = { λ _ e. e ≡ Memory };

    fn from(_: AllocFailed<T>) -> Stop {
        Stop::Memory
    }
}

impl From<WriteFailed> for Stop {
    ghost from_gives = { λ _ e. e ≡ Write };

    fn from(_: WriteFailed) -> Stop {
        Stop::Write
    }
}
