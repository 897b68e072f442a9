//! Clashes of rigid heads.

ghost use Rattle.std.specs.Prelude.{◌≡◌, ◌∷◌, [], option_map, IfOk};
ghost use Rattle.isa_unify.specs.TypeUnification.{unify_typs};
ghost use Rattle.isa_unify.specs.Steps.{walked};
ghost use Rattle.isa_unify.specs.Unification.{parts_at, clash_step_at, clash_step, clashes};

use crate::equation::{Equation, Equations};
use crate::parts::parts_at;
use crate::progress::{Parts, Walk};
use crate::types::{TypePair, unified_pairs};
use isa_terms::{Typ, TypeEntry};
use std::alloc::{AllocError, Global};

/// A most general unifier of two types.
pub fn unified_types(
    alloc: Global,
    left: Typ,
    right: Typ,
) -> Result<Option<Vec<TypeEntry>>, AllocError>
    ensures { IfOk result (λ found. option_map (λ entries. entries.items) found ≡ unify_typs ((left, right) ∷ [])) }
{
    let mut work = Vec::new(alloc);
    work.push(TypePair { left, right })?;
    unified_pairs(alloc, work)
}

/// The walk over an equation before the others.
fn walk_front(alloc: Global, equation: &Equation, mut rest: Equations) -> Result<Walk, AllocError>
    ensures { IfOk result (λ w. w ≡ walked (clash_step_at (parts_at equation.now.binders equation.now.left equation.now.right) rest)) }
{
    match parts_at(alloc, &equation.binders, &equation.left, &equation.right)? {
        Parts::Flexible => Ok(Walk::Goes(rest)),
        Parts::Clash => Ok(Walk::Ends(true)),
        Parts::Into(parts) => {
            rest.put_all_first(parts)?;
            Ok(Walk::Goes(rest))
        }
        Parts::Heads(left, right, parts) => {
            if unified_types(alloc, left, right)?.is_some() {
                rest.put_all_first(parts)?;
                Ok(Walk::Goes(rest))
            } else {
                Ok(Walk::Ends(true))
            }
        }
    }
}

/// One step of the walk.
#[tactic(auto, unfolding(crate::specs::Unification::clash_step))]
fn walk(alloc: Global, mut equations: Equations) -> Result<Walk, AllocError>
    ensures { IfOk result (λ w. w ≡ walked (clash_step equations)) }
{
    match equations.take_first() {
        None => Ok(Walk::Ends(false)),
        Some(equation) => walk_front(alloc, &equation, equations),
    }
}

/// Whether two rigid heads don't agree at some place, or have other numbers of arguments.
#[tactic(auto, using(crate::proofs::Loops::walk_same, crate::proofs::Loops::walk_falls, crate::proofs::Loops::walk_ends))]
pub fn clashes(alloc: Global, equations: Equations) -> Result<bool, AllocError>
    ensures { IfOk result (λ b. b ≡ clashes equations) }
{
    let mut rest = equations;
    'places: loop {
        match walk(alloc, rest)? {
            Walk::Goes(next) => rest = next,
            Walk::Ends(clash) => return Ok(clash),
        }
    }
}
