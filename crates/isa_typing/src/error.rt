//! Why no principal term is answered.

use std::alloc::AllocError;

/// Why a text has no principal term here.
#[derive(Debug, Drop)]
pub enum InferError {
    /// The types do not agree: the text has no typing.
    Types,
    /// Memory ran out.
    Memory,
}

impl From<AllocError> for InferError {
    ghost use Rattle.std.specs.Prelude.{◌≡◌};
    ghost use Rattle.isa_typing.specs.declared.error.InferError.TheVariants.{Memory};

    ghost from_gives = { λ _ e. e ≡ Memory };

    fn from(_: AllocError) -> InferError {
        InferError::Memory
    }
}
