//! Why a command is not accepted.
ghost use Rattle.std.specs.Prelude.{◌≡◌};
ghost use Rattle.isaprove.specs.Run.{failure_code};

use isa_outer::{Kind, Refused};
use std::alloc::AllocError;

/// Why a method gives no state.
#[derive(Clone, Copy)]
pub enum Failure {
    /// There is none, after so many unifications outside of patterns.
    NoResult(u64),
    /// Its budget of so many ticks is spent.
    Spent(u64),
}

/// Why a command is not accepted.
#[derive(Drop)]
pub enum Rejection {
    /// Its method gives no state.
    Failed(Failure),
    /// It is refused, or memory was wanting.
    Refused(Refused),
}

impl Failure {
    /// The status of a run whose first failure it is.
    pub fn code(self) -> u8
        ensures { result ≡ failure_code self }
    {
        match self {
            Failure::NoResult(outside) => { if outside == 0 { 1 } else { 7 } }
            Failure::Spent(_) => 2,
        }
    }
}

impl From<AllocError> for Rejection {
    ghost use Rattle.std.specs.Prelude.{◌≡◌};
    ghost use Rattle.isa_outer.specs.declared.refusal.Kind.TheVariants as kind;
    ghost use Rattle.isaprove.specs.declared.failure.Rejection.TheVariants as rejection;

    ghost from_gives = { λ _ e. e ≡ rejection.Refused (record { line = 0; kind = kind.Memory }) };

    fn from(_: AllocError) -> Rejection {
        Rejection::Refused(Refused {
            line: 0,
            kind: Kind::Memory,
        })
    }
}

impl From<Failure> for Rejection {
    ghost use Rattle.std.specs.Prelude.{◌≡◌};
    ghost use Rattle.isaprove.specs.declared.failure.Rejection.TheVariants as rejection;

    ghost from_gives = { λ failure e. e ≡ rejection.Failed failure };

    fn from(failure: Failure) -> Rejection {
        Rejection::Failed(failure)
    }
}

impl From<Refused> for Rejection {
    ghost use Rattle.std.specs.Prelude.{◌≡◌};
    ghost use Rattle.isaprove.specs.declared.failure.Rejection.TheVariants as rejection;

    ghost from_gives = { λ refused e. e ≡ rejection.Refused refused };

    fn from(refused: Refused) -> Rejection {
        Rejection::Refused(refused)
    }
}
