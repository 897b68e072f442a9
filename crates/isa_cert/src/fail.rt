//! Why a line is refused.
use isa_kernel::InferenceError;
use std::alloc::AllocError;

/// Why a line is refused, or that memory ran out.
#[derive(Debug, Drop)]
pub(crate) enum LineFail {
    /// It has none of the forms, or names what isn't there.
    Form,
    /// A term that it names has no type, or an axiom is no proposition.
    Typed,
    /// An inference's condition fails.
    Step,
    Memory,
}

impl From<AllocError> for LineFail {
    ghost use Rattle.std.specs.Prelude.{◌≡◌};
    ghost use Rattle.isa_cert.specs.declared.fail.LineFail.TheVariants.{Memory};

    ghost from_gives = { λ _ e. e ≡ Memory };

    fn from(_: AllocError) -> LineFail {
        LineFail::Memory
    }
}
