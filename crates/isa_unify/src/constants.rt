//! Unknowns that count as constants in matching.

ghost use Rattle.std.specs.Prelude.{◌≡◌, ℕ, true, List, [], IfOk};
ghost use Rattle.isa_terms.specs.Types.{Ty};
ghost use Rattle.isa_unify.specs.Matching.{have_unknown, is_fixed, IsSettled};
ghost use Rattle.isa_unify.specs.Constants.{with_all_types, with_all_unknowns, constants_of};

use crate::asking::{add_types, add_unknowns};
use crate::unification::inst_of;
use isa_terms::{Inst, Term, TermEntries, TypeEntries};
use std::alloc::{AllocError, Global};

/// The type unknowns of the terms, each as itself.
fn all_types(alloc: Global, terms: &[Term]) -> Result<TypeEntries, AllocError>
    ensures { IfOk result (λ types. types ≡ with_all_types [] terms.now) }
{
    let mut types = TypeEntries::new(alloc);
    for t in terms {
        add_types(t, &mut types)?;
    }
    Ok(types)
}

/// The unknowns of the terms, each as itself.
fn all_unknowns(alloc: Global, terms: &[Term]) -> Result<TermEntries, AllocError>
    ensures { IfOk result (λ unknowns. unknowns ≡ with_all_unknowns [] terms.now) }
{
    let mut unknowns = TermEntries::new(alloc);
    for t in terms {
        add_unknowns(t, &mut unknowns)?;
    }
    Ok(unknowns)
}

/// Each type unknown and each unknown of the terms as itself.
fn themselves(alloc: Global, terms: &[Term]) -> Result<Inst, AllocError>
    ensures { IfOk result (λ s. s ≡ constants_of terms.now) }
{
    let types = all_types(alloc, terms)?;
    let unknowns = all_unknowns(alloc, terms)?;
    inst_of(alloc, &types, &unknowns)
}

/// The instance that maps each type unknown and each unknown of the terms to itself. Where `match_patterns_from` starts
/// from it, they count as constants.
pub fn constants_of(alloc: Global, terms: &[Term]) -> Result<Inst, AllocError>
    ensures answer { IfOk result (λ s. s ≡ constants_of terms.now) }
    ensures settled { IfOk result (λ s. IsSettled s) }
    ensures fixed { IfOk result (λ s. (x : List ℕ) (i : ℕ) (T : Ty) → have_unknown x i T terms.now ≡ true → is_fixed s x i T ≡ true) }
{
    themselves(alloc, terms)
}
