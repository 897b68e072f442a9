//! What a theory declares, and why it refuses.
use isa_terms::{IllTyped, Name, Term, Typ};
use std::alloc::AllocError;

/// What a theory declares, by its name.
#[derive(Drop)]
pub enum Declaration {
    /// A type constructor with the number of its arguments.
    Constructor(Name, u32),
    /// A constant with its general type.
    Constant(Name, Typ),
    /// An axiom with its proposition.
    Axiom(Name, Term),
}

/// Why a declaration is refused.
#[derive(Drop)]
pub enum TheoryFail {
    /// The name is declared, for a thing of the same sort.
    Duplicate(Name),
    /// A type constructor or a constant of that name isn't declared.
    Unknown(Name),
    /// A type constructor has another number of arguments than declared, or a constant a type that is no instance of its declared one.
    Misfit(Name),
    /// The term isn't well typed.
    IllTyped(IllTyped),
    /// An axiom has another type than that of propositions.
    NotProp(Typ),
    /// Memory ran out.
    Memory,
}

/// Why there is no axiom of a name.
#[derive(Drop)]
pub enum AxiomFail {
    /// No axiom of that name is declared.
    UnknownAxiom(Name),
    /// Memory ran out.
    Memory,
}

impl From<AllocError> for TheoryFail {
    ghost use Rattle.std.specs.Prelude.{◌≡◌};
    ghost use Rattle.isa_kernel.specs.declared.declarations.TheoryFail.TheVariants.{Memory};

    ghost from_gives = { λ _ e. e ≡ Memory };

    fn from(_: AllocError) -> TheoryFail {
        TheoryFail::Memory
    }
}

impl From<AllocError> for AxiomFail {
    ghost use Rattle.std.specs.Prelude.{◌≡◌};
    ghost use Rattle.isa_kernel.specs.declared.declarations.AxiomFail.TheVariants.{Memory};

    ghost from_gives = { λ _ e. e ≡ Memory };

    fn from(_: AllocError) -> AxiomFail {
        AxiomFail::Memory
    }
}
