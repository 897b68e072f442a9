//! The principal term of a text.

ghost use Rattle.std.specs.Prelude.{◌≡◌, List, IfOk, IfSome, IfNone};
ghost use Rattle.isa_terms.specs.declared.inst.TypeEntry.{TypeEntry};
ghost use Rattle.isa_unify.specs.TypeUnification.{Unifies};
ghost use Rattle.isa_typing.specs.Scopes.{declared_in};
ghost use Rattle.isa_typing.specs.Inference.{equations_of};
ghost use Rattle.isa_typing.specs.Naming.{IsNamed, IsSolved};
ghost use Rattle.isa_typing.specs.TextNames.{names_in};
ghost use Rattle.isa_typing.specs.Principal.{Infers};

use crate::error::InferError;
use crate::indexing::index_of;
use crate::inferred::{Binders, inferred};
use crate::naming::{entries_for, new_names, thawed_term};
use crate::open_types::open_types;
use crate::resolving::term_under;
use crate::solving::solution_of;
use crate::text_names::note_names;
use indexmap::IndexMap;
use isa_raw::RawTerm;
use isa_terms::{Name, Names, Term, Typ, norm};
use std::alloc::{AllocError, Global};

/// The term with its open types named, by names that aren't taken, and as the text has it.
fn named_term(alloc: Global, solved: Term, taken: Names) -> Result<Term, AllocError>
    ensures { IfOk result (λ p. IsNamed taken solved p) }
{
    let unknowns = open_types(alloc, &solved)?;
    let names = new_names(alloc, taken, unknowns.len())?;
    let entries = entries_for(alloc, unknowns.as_slice(), names.as_slice())?;
    let index = index_of(alloc, entries.as_slice())?;
    let named = term_under(alloc, &index, &solved)?;
    let term = thawed_term(alloc, &named)?;
    Ok(term)
}

/// The names of the text's type variables.
fn names_in(
    alloc: Global,
    constants: &IndexMap<Name, Typ>,
    raw: &RawTerm,
) -> Result<Names, AllocError>
    ensures { IfOk result (λ names. names ≡ names_in (declared_in constants.now.entries) raw.now) }
{
    let mut names = Names::new(alloc);
    note_names(&mut names, constants, raw)?;
    Ok(names)
}

/// The term under a most general unifier of its equations, if they have one.
fn solved_term(
    alloc: Global,
    constants: &IndexMap<Name, Typ>,
    raw: &RawTerm,
) -> Result<Option<Term>, AllocError>
    ensures found { IfOk result (λ found. IfSome found (IsSolved (declared_in constants.now.entries) raw.now)) }
    ensures none { IfOk result (λ found. IfNone found ((q : List TypeEntry) → Unifies q (equations_of (declared_in constants.now.entries) raw.now) → ⊥)) }
{
    let mut equations = Vec::new(alloc);
    let mut next = 1;
    let (term, _typ) = inferred(
        alloc,
        constants,
        &Binders::Outermost,
        &mut next,
        raw,
        &mut equations,
    )?;
    // The equations of a term's parts are solved before its own.
    equations.reverse();
    match solution_of(alloc, equations)? {
        None => Ok(None),
        Some(found) => {
            let solved = term_under(alloc, &found, &term)?;
            Ok(Some(solved))
        }
    }
}

/// The principal term of a text over constants of these types: its most general typing, in normal form. What the text
/// leaves open are type variables of new names. `Types` comes exactly where the text has no typing.
#[tactic(auto, using(crate::proofs::MostGeneral::principal_of_named))]
pub fn infer(
    alloc: Global,
    constants: &IndexMap<Name, Typ>,
    raw: &RawTerm,
) -> Result<Term, InferError>
    ensures { Infers (declared_in constants.now.entries) raw.now result }
{
    match solved_term(alloc, constants, raw)? {
        None => Err(InferError::Types),
        Some(solved) => {
            let taken = names_in(alloc, constants, raw)?;
            let term = named_term(alloc, solved, taken)?;
            Ok(norm(alloc, &term)?)
        }
    }
}
