//! Why a simpset refuses a fact.
use isa_terms::Name;
use std::alloc::AllocError;

/// Why a simpset refuses a fact.
#[derive(Drop)]
pub enum SimpFail {
    /// The fact gives no rewrite rule, or has not the form of a congruence rule.
    NotEquation,
    /// The left side of a rule has an unknown that is applied to other terms than distinct bound variables.
    NotPattern,
    /// A rule has an unknown of that name, which its left side does not fix.
    ExtraVar(Name),
    /// The fact is no split rule.
    NotSplit,
    /// Nothing of the fact is there to be taken out.
    NotThere,
    /// Memory ran out.
    Memory,
}

impl From<AllocError> for SimpFail {
    ghost use Rattle.std.specs.Prelude.{◌≡◌};
    ghost use Rattle.isa_simpset.specs.declared.fail.SimpFail.TheVariants.{Memory};

    ghost from_gives = { λ _ e. e ≡ Memory };

    fn from(_: AllocError) -> SimpFail {
        SimpFail::Memory
    }
}
