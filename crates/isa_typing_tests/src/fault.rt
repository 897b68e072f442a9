//! Why a row gives no answer.

use std::alloc::AllocError;

/// Why a row gives no answer.
#[derive(Drop)]
pub enum Fault {
    /// The words have no meaning.
    Words,
    /// Memory ran out.
    Memory,
}

impl From<AllocError> for Fault {
    ghost use Rattle.std.specs.Prelude.{◌≡◌};
    ghost use Rattle.isa_typing_tests.specs.declared.fault.Fault.TheVariants.{Memory};

    ghost from_gives = { λ _ e. e ≡ Memory };

    fn from(_: AllocError) -> Fault {
        Fault::Memory
    }
}
