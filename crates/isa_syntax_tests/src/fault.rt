//! Why a line can't be carried out.
use isa_outer::{Kind, Refused};
use std::alloc::{AllocError, AllocFailed};
use std::io;
use std::io::ErrorKind;

/// Why a line can't be carried out.
#[derive(Drop)]
pub enum Fault {
    /// A declaration or a text is refused.
    Refused(Kind),
    /// The line has no meaning.
    Line,
    /// Memory ran out.
    Memory,
}

impl From<Kind> for Fault {
    fn from(kind: Kind) -> Fault {
        match kind {
            Kind::Memory => Fault::Memory,
            other => Fault::Refused(other),
        }
    }
}

impl From<Refused> for Fault {
    fn from(refused: Refused) -> Fault {
        Fault::from(refused.kind)
    }
}

impl From<AllocError> for Fault {
    fn from(_: AllocError) -> Fault {
        Fault::Memory
    }
}

impl From<Fault> for io::Error {
    fn from(fault: Fault) -> io::Error {
        match fault {
            Fault::Memory => AllocError.into(),
            Fault::Refused(_) => ErrorKind::InvalidInput.into(),
            Fault::Line => ErrorKind::InvalidInput.into(),
        }
    }
}
