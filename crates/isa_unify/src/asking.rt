//! The unknowns and type unknowns that are asked for.

ghost use Rattle.std.specs.Prelude.{◌≡◌, OnOk};
ghost use Rattle.isa_terms.specs.Types.{tys_of};
ghost use Rattle.isa_unify.specs.Unification.{with_type_unknowns, with_all_type_unknowns, with_types, with_unknowns};

use isa_terms::{
    Term, TermEntries, TermEntry, TermNode, Typ, TypNode, TypeEntries, TypeEntry, find_term,
    find_type,
};
use std::alloc::{AllocError, Global};

/// Puts the type unknowns that have no entry yet behind the others, each as itself.
#[cycle(asked)]
#[tactic(auto, using(crate::proofs::Unvisited::no_type_asked))]
fn add_type_unknowns(typ: &Typ, entries: &mut TypeEntries) -> Result<(), AllocError>
    ensures { OnOk result (entries.new ≡ with_type_unknowns entries.old typ.now) }
{
    if !typ.has_unknowns() {
        return Ok(());
    }
    match typ.view() {
        TypNode::Con(_, args) => add_all_type_unknowns(args.as_slice(), entries),
        TypNode::Fixed(_) => Ok(()),
        TypNode::Unknown(name, number) => {
            if find_type(name, *number, entries.as_slice()).is_none() {
                entries.push(TypeEntry {
                    name: name.copy()?,
                    number: *number,
                    typ: typ.copy()?,
                })?;
            }
            Ok(())
        }
    }
}

#[cycle(asked)]
fn add_all_type_unknowns(args: &[Typ], entries: &mut TypeEntries) -> Result<(), AllocError>
    ensures { OnOk result (entries.new ≡ with_all_type_unknowns entries.old (tys_of args.now)) }
{
    match args.split_first() {
        None => Ok(()),
        Some((first, rest)) => {
            add_type_unknowns(first, entries)?;
            add_all_type_unknowns(rest, entries)
        }
    }
}

/// Puts the term's type unknowns behind the others.
#[tactic(auto, using(crate::proofs::Unvisited::none_asked))]
pub fn add_types(t: &Term, entries: &mut TypeEntries) -> Result<(), AllocError>
    ensures { OnOk result (entries.new ≡ with_types entries.old t.now) }
{
    if !t.has_type_unknowns() {
        return Ok(());
    }
    match t.view() {
        TermNode::Const(_, typ) | TermNode::Free(_, typ) | TermNode::Unknown(_, _, typ) => {
            add_type_unknowns(typ, entries)
        }
        TermNode::Bound(_) => Ok(()),
        TermNode::Abs(_, typ, body) => {
            add_type_unknowns(typ, entries)?;
            add_types(body, entries)
        }
        TermNode::App(fun, arg) => {
            add_types(fun, entries)?;
            add_types(arg, entries)
        }
    }
}

/// Puts the term's unknowns that have no entry yet behind the others, each as itself.
#[tactic(auto, using(crate::proofs::Unvisited::no_term_asked))]
pub fn add_unknowns(t: &Term, entries: &mut TermEntries) -> Result<(), AllocError>
    ensures { OnOk result (entries.new ≡ with_unknowns entries.old t.now) }
{
    if !t.has_unknowns() {
        return Ok(());
    }
    match t.view() {
        TermNode::Const(_, _) | TermNode::Free(_, _) | TermNode::Bound(_) => Ok(()),
        TermNode::Unknown(name, number, typ) => {
            if find_term(name, *number, typ, entries.as_slice()).is_none() {
                entries.push(TermEntry {
                    name: name.copy()?,
                    number: *number,
                    typ: typ.copy()?,
                    term: t.copy()?,
                })?;
            }
            Ok(())
        }
        TermNode::Abs(_, _, body) => add_unknowns(body, entries),
        TermNode::App(fun, arg) => {
            add_unknowns(fun, entries)?;
            add_unknowns(arg, entries)
        }
    }
}
