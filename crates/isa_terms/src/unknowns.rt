//! The unknowns and the type unknowns of terms, each once, in the order in which they first occur, and their greatest number.
ghost use Rattle.std.specs.Prelude.{◌≡◌, [], IfOk};
ghost use Rattle.isa_terms.specs.Types.{tys_of};
ghost use Rattle.isa_terms.specs.Unknowns.{unknown_places, all_unknown_places, ty_unknown_places, tys_unknown_places, type_unknown_places, all_type_unknown_places, all_noted, has_ty, tys_noted, unknowns_of, type_unknowns_of, greater, ty_greatest_number, tys_greatest_number, greatest_number};

use crate::same::same_typ;
use crate::term::{Term, TermNode};
use crate::terms::{Terms, has};
use crate::typ::{Typ, TypNode, Typs};
use std::alloc::{AllocError, Global};

/// The unknowns seen so far, and then those of the term that are new.
#[tactic(auto, using(crate::proofs::Noting::noted_append, crate::proofs::Noting::none_noted))]
fn note_unknowns(t: &Term, mut seen: Terms) -> Result<Terms, AllocError>
    ensures { IfOk result (λ r. r ≡ all_noted seen (unknown_places t.now)) }
{
    if !t.has_unknowns() {
        return Ok(seen);
    }
    match t.view() {
        TermNode::Unknown(_, _, _) => {
            if !has(seen.as_slice(), t) {
                seen.push(t.copy()?)?;
            }
            Ok(seen)
        }
        TermNode::Abs(_, _, body) => note_unknowns(body, seen),
        TermNode::App(fun, arg) => {
            let seen = note_unknowns(fun, seen)?;
            note_unknowns(arg, seen)
        }
        TermNode::Const(_, _) | TermNode::Free(_, _) | TermNode::Bound(_) => Ok(seen),
    }
}

#[tactic(auto, using(crate::proofs::Noting::noted_append))]
fn note_all_unknowns(terms: &[Term], seen: Terms) -> Result<Terms, AllocError>
    ensures { IfOk result (λ r. r ≡ all_noted seen (all_unknown_places terms.now)) }
{
    match terms.split_first() {
        None => Ok(seen),
        Some((first, rest)) => {
            let seen = note_unknowns(first, seen)?;
            note_all_unknowns(rest, seen)
        }
    }
}

/// The unknowns of the terms, each once, in the order in which they first occur from left to right.
pub fn unknowns_of(alloc: Global, terms: &[Term]) -> Result<Terms, AllocError>
    ensures { IfOk result (λ r. r ≡ unknowns_of terms.now) }
{
    note_all_unknowns(terms, Terms::new(alloc))
}

/// Whether one of the types is the type.
fn has_typ(types: &[Typ], typ: &Typ) -> bool
    ensures { result ≡ has_ty types.now typ.now }
{
    for other in types {
        if same_typ(other, typ) {
            return true;
        }
    }
    false
}

/// The type unknowns seen so far, and then those of the type that are new.
#[cycle(noting)]
#[tactic(auto, using(crate::proofs::Noting::no_type_noted))]
fn note_of_type(typ: &Typ, mut seen: Typs) -> Result<Typs, AllocError>
    ensures { IfOk result (λ r. r ≡ tys_noted seen (ty_unknown_places typ.now)) }
{
    if !typ.has_unknowns() {
        return Ok(seen);
    }
    match typ.view() {
        TypNode::Con(_, args) => note_of_types(args.as_slice(), seen),
        TypNode::Fixed(_) => Ok(seen),
        TypNode::Unknown(_, _) => {
            if !has_typ(seen.as_slice(), typ) {
                seen.push(typ.copy()?)?;
            }
            Ok(seen)
        }
    }
}

#[cycle(noting)]
#[tactic(auto, using(crate::proofs::Noting::tys_noted_append))]
fn note_of_types(types: &[Typ], seen: Typs) -> Result<Typs, AllocError>
    ensures { IfOk result (λ r. r ≡ tys_noted seen (tys_unknown_places (tys_of types.now))) }
{
    match types.split_first() {
        None => Ok(seen),
        Some((first, rest)) => {
            let seen = note_of_type(first, seen)?;
            note_of_types(rest, seen)
        }
    }
}

/// The type unknowns seen so far, and then those of the term that are new.
#[tactic(auto, using(crate::proofs::Noting::tys_noted_append, crate::proofs::Noting::no_types_noted))]
fn note_type_unknowns(t: &Term, seen: Typs) -> Result<Typs, AllocError>
    ensures { IfOk result (λ r. r ≡ tys_noted seen (type_unknown_places t.now)) }
{
    if !t.has_type_unknowns() {
        return Ok(seen);
    }
    match t.view() {
        TermNode::Const(_, typ) | TermNode::Free(_, typ) | TermNode::Unknown(_, _, typ) => {
            note_of_type(typ, seen)
        }
        TermNode::Bound(_) => Ok(seen),
        TermNode::Abs(_, typ, body) => {
            let seen = note_of_type(typ, seen)?;
            note_type_unknowns(body, seen)
        }
        TermNode::App(fun, arg) => {
            let seen = note_type_unknowns(fun, seen)?;
            note_type_unknowns(arg, seen)
        }
    }
}

#[tactic(auto, using(crate::proofs::Noting::tys_noted_append))]
fn note_all_type_unknowns(terms: &[Term], seen: Typs) -> Result<Typs, AllocError>
    ensures { IfOk result (λ r. r ≡ tys_noted seen (all_type_unknown_places terms.now)) }
{
    match terms.split_first() {
        None => Ok(seen),
        Some((first, rest)) => {
            let seen = note_type_unknowns(first, seen)?;
            note_all_type_unknowns(rest, seen)
        }
    }
}

/// The type unknowns of the terms, each once, in the order in which they first occur from left to right, a binder's type
/// before its body.
pub fn type_unknowns_of(alloc: Global, terms: &[Term]) -> Result<Typs, AllocError>
    ensures { IfOk result (λ r. r ≡ type_unknowns_of terms.now) }
{
    note_all_type_unknowns(terms, Typs::new(alloc))
}

/// The greater of two numbers, where there are any.
fn greater(left: Option<u32>, right: Option<u32>) -> Option<u32>
    ensures { result ≡ greater left right }
{
    match (left, right) {
        (None, number) => number,
        (Some(number), None) => Some(number),
        (Some(number), Some(other)) => Some(number.max(other)),
    }
}

#[cycle(greatest)]
#[tactic(auto, using(crate::proofs::Noting::no_ty_number))]
fn greatest_of_type(typ: &Typ) -> Option<u32>
    ensures { result ≡ ty_greatest_number typ.now }
{
    if !typ.has_unknowns() {
        return None;
    }
    match typ.view() {
        TypNode::Con(_, args) => greatest_of_types(args.as_slice()),
        TypNode::Fixed(_) => None,
        TypNode::Unknown(_, number) => Some(*number),
    }
}

#[cycle(greatest)]
fn greatest_of_types(types: &[Typ]) -> Option<u32>
    ensures { result ≡ tys_greatest_number (tys_of types.now) }
{
    match types.split_first() {
        None => None,
        Some((first, rest)) => greater(greatest_of_type(first), greatest_of_types(rest)),
    }
}

/// The greatest number of an unknown or a type unknown of the term; `None` where it has neither.
#[tactic(auto, using(crate::proofs::Noting::no_number))]
pub fn greatest_number(t: &Term) -> Option<u32>
    ensures { result ≡ greatest_number t.now }
{
    if !t.has_unknowns() && !t.has_type_unknowns() {
        return None;
    }
    match t.view() {
        TermNode::Const(_, typ) | TermNode::Free(_, typ) => greatest_of_type(typ),
        TermNode::Unknown(_, number, typ) => greater(Some(*number), greatest_of_type(typ)),
        TermNode::Bound(_) => None,
        TermNode::Abs(_, typ, body) => greater(greatest_of_type(typ), greatest_number(body)),
        TermNode::App(fun, arg) => greater(greatest_number(fun), greatest_number(arg)),
    }
}
