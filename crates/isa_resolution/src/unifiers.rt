//! The instance that unification finds for pairs of terms.
ghost use Rattle.std.specs.Prelude.{◌≡◌, ◌&&◌, true, IfOk};
ghost use Rattle.isa_kernel.specs.Inferences.{has_type, keeps};
ghost use Rattle.isa_resolution.specs.Unifiers.{makes_equal, is_unifier, answer_of, IsKept};

use isa_terms::{
    IllTyped, Inst, Term, TermEntry, Terms, Typ, TypeEntry, inst_typ, instantiate, same_term,
    same_typ, type_of,
};
use isa_unify::{Fresh, TermPair, Unified, unify_pairs};
use std::alloc::{AllocError, Global};

/// Whether the term is well typed with the type.
fn has_type(alloc: Global, t: &Term, typ: &Typ) -> Result<bool, AllocError>
    ensures { IfOk result (λ b. b ≡ has_type t.now typ.now) }
{
    match type_of(alloc, t) {
        Ok(found) => Ok(same_typ(&found, typ)),
        Err(IllTyped::Memory) => Err(AllocError),
        Err(_) => Ok(false),
    }
}

/// Whether each term has the instance of the type of its unknown.
pub(crate) fn keeps(
    alloc: Global,
    types: &[TypeEntry],
    terms: &[TermEntry],
) -> Result<bool, AllocError>
    ensures { IfOk result (λ b. b ≡ keeps types.now terms.now) }
{
    match terms.split_first() {
        None => Ok(true),
        Some((first, rest)) => {
            let typ = inst_typ(alloc, types, &first.typ)?;
            Ok(has_type(alloc, &first.term, &typ)? && keeps(alloc, types, rest)?)
        }
    }
}

/// Whether the instance makes both sides of each pair equal.
fn makes_equal(alloc: Global, inst: &Inst, pairs: &[TermPair]) -> Result<bool, AllocError>
    ensures { IfOk result (λ b. b ≡ makes_equal inst.now pairs.now) }
{
    match pairs.split_first() {
        None => Ok(true),
        Some((first, rest)) => {
            let left = instantiate(alloc, inst, &first.left)?;
            let right = instantiate(alloc, inst, &first.right)?;
            Ok(same_term(&left, &right) && makes_equal(alloc, inst, rest)?)
        }
    }
}

/// Whether the instance keeps types and makes both sides of each pair equal.
pub(crate) fn is_unifier(alloc: Global, inst: &Inst, pairs: &[TermPair]) -> Result<bool, AllocError>
    ensures test { IfOk result (λ b. b ≡ is_unifier inst.now pairs.now) }
    ensures kept { IfOk result (λ b. b ≡ true → keeps inst.now.types inst.now.terms ≡ true) }
{
    let types = inst.types().as_slice();
    let terms = inst.terms().as_slice();
    Ok(keeps(alloc, types, terms)? && makes_equal(alloc, inst, pairs)?)
}

/// The answer of unification for the pairs, with new unknowns numbered from that number on.
#[tactic(auto, using(crate::proofs::Answered::yes_is, crate::proofs::Answered::yes_is_none, crate::proofs::Answered::no_is, crate::proofs::Answered::outside_is))]
pub(crate) fn answer_of(alloc: Global, pairs: &[TermPair], next: u32) -> Result<Unified, AllocError>
    ensures answer { IfOk result (λ u. u ≡ answer_of pairs.now next) }
    ensures kept { IfOk result (λ u. IsKept u) }
{
    let mut fresh = Fresh::after(&Terms::new(alloc));
    fresh.set(next);
    match unify_pairs(alloc, pairs, &mut fresh)? {
        Unified::Yes(inst) => {
            if is_unifier(alloc, &inst, pairs)? {
                Ok(Unified::Yes(inst))
            } else {
                Ok(Unified::No)
            }
        }
        Unified::No => Ok(Unified::No),
        Unified::Outside => Ok(Unified::Outside),
    }
}
