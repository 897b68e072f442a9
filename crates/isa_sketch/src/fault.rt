//! Why words give no result.
use isa_kernel::{AxiomFail, InferenceError};
use isa_terms::Name;
use std::alloc::AllocError;

/// Why words give no result.
#[derive(Drop)]
pub enum Fault {
    /// The words have no meaning.
    Words,
    /// An inference refuses its arguments.
    Shape,
    /// No axiom of that name is declared.
    UnknownAxiom(Name),
    /// Memory ran out.
    Memory,
}

impl Fault {
    /// Words without a meaning in the place of a refusal. Want of memory stays.
    pub fn as_words(self) -> Fault {
        match self {
            Fault::Memory => Fault::Memory,
            _ => Fault::Words,
        }
    }
}

impl From<AllocError> for Fault {
    ghost use Rattle.std.specs.Prelude.{◌≡◌};
    ghost use Rattle.isa_sketch.specs.declared.fault.Fault.TheVariants.{Memory};

    ghost from_gives = { λ _ e. e ≡ Memory };

    fn from(_: AllocError) -> Fault {
        Fault::Memory
    }
}

/// The fault of an inference.
pub fn inference_fault(error: InferenceError) -> Fault {
    match error {
        InferenceError::Shape => Fault::Shape,
        InferenceError::Memory => Fault::Memory,
    }
}

/// The fault of a call for an axiom.
pub fn axiom_fault(error: AxiomFail) -> Fault {
    match error {
        AxiomFail::UnknownAxiom(name) => Fault::UnknownAxiom(name),
        AxiomFail::Memory => Fault::Memory,
    }
}
