//! The types that a term leaves open, each once, in the order in which they first occur.

ghost use Rattle.std.specs.Prelude.{◌≡◌, [], ◌∷◌, IfOk, OnOk};
ghost use Rattle.isa_terms.specs.Types.{tys_of, TyUnknown};
ghost use Rattle.isa_terms.specs.Unknowns.{ty_noted, tys_noted, ty_unknown_places, tys_unknown_places, type_unknown_places, type_unknowns_of};
ghost use Rattle.isa_typing.specs.Indexes.{AreIndexed};

use indexmap::IndexSet;
use isa_terms::{Name, Term, TermNode, Typ, TypNode, Typs};
use std::alloc::{AllocError, Global};

/// Puts a variable behind those that were seen, unless it is one of them.
#[tactic(auto, using(crate::proofs::Indexed::indexed_more))]
fn note(
    index: &mut IndexSet<(Name, u32)>,
    seen: &mut Typs,
    name: &Name,
    number: u32,
    typ: &Typ,
) -> Result<(), AllocError>
    requires is { typ.now ≡ TyUnknown name.now number }
    requires indexed { AreIndexed index.now.keys seen.now }
    ensures seen { OnOk result (seen.new ≡ ty_noted seen.old typ.now) }
    ensures indexed { OnOk result (AreIndexed index.new.keys seen.new) }
{
    let variable = name.copy()?;
    if index.contains(&(variable, number)) {
        return Ok(());
    }
    let variable = name.copy()?;
    index.insert((variable, number))?;
    seen.push(typ.copy()?)?;
    Ok(())
}

/// Puts the open types of the type behind those that were seen.
#[cycle(noting)]
#[tactic(auto, using(isa_terms::proofs::Noting::no_type_noted))]
fn note_typ(index: &mut IndexSet<(Name, u32)>, seen: &mut Typs, typ: &Typ) -> Result<(), AllocError>
    requires { AreIndexed index.now.keys seen.now }
    ensures seen { OnOk result (seen.new ≡ tys_noted seen.old (ty_unknown_places typ.now)) }
    ensures indexed { OnOk result (AreIndexed index.new.keys seen.new) }
{
    if !typ.has_unknowns() {
        return Ok(());
    }
    match typ.view() {
        TypNode::Con(_, args) => note_typs(index, seen, args.as_slice()),
        TypNode::Fixed(_) => Ok(()),
        TypNode::Unknown(name, number) => note(index, seen, name, *number, typ),
    }
}

#[cycle(noting)]
#[tactic(auto, using(isa_terms::proofs::Noting::tys_noted_append))]
fn note_typs(
    index: &mut IndexSet<(Name, u32)>,
    seen: &mut Typs,
    args: &[Typ],
) -> Result<(), AllocError>
    requires { AreIndexed index.now.keys seen.now }
    ensures seen { OnOk result (seen.new ≡ tys_noted seen.old (tys_unknown_places (tys_of args.now))) }
    ensures indexed { OnOk result (AreIndexed index.new.keys seen.new) }
{
    match args.split_first() {
        None => Ok(()),
        Some((first, rest)) => {
            note_typ(index, seen, first)?;
            note_typs(index, seen, rest)
        }
    }
}

/// Likewise for the types of the term.
#[tactic(auto, using(isa_terms::proofs::Noting::tys_noted_append, isa_terms::proofs::Noting::no_types_noted))]
fn note_term(index: &mut IndexSet<(Name, u32)>, seen: &mut Typs, t: &Term) -> Result<(), AllocError>
    requires { AreIndexed index.now.keys seen.now }
    ensures seen { OnOk result (seen.new ≡ tys_noted seen.old (type_unknown_places t.now)) }
    ensures indexed { OnOk result (AreIndexed index.new.keys seen.new) }
{
    if !t.has_type_unknowns() {
        return Ok(());
    }
    match t.view() {
        TermNode::Const(_, typ) | TermNode::Free(_, typ) | TermNode::Unknown(_, _, typ) => {
            note_typ(index, seen, typ)
        }
        TermNode::Bound(_) => Ok(()),
        TermNode::Abs(_, typ, body) => {
            note_typ(index, seen, typ)?;
            note_term(index, seen, body)
        }
        TermNode::App(fun, arg) => {
            note_term(index, seen, fun)?;
            note_term(index, seen, arg)
        }
    }
}

/// The type unknowns of the term, each once, in the order in which they first occur, a binder's type before its body.
#[tactic(auto, using(crate::proofs::Indexed::nothing_indexed, crate::proofs::Indexed::unknowns_of_one))]
pub(crate) fn open_types(alloc: Global, t: &Term) -> Result<Typs, AllocError>
    ensures { IfOk result (λ types. types ≡ type_unknowns_of (t.now ∷ [])) }
{
    let mut index: IndexSet<(Name, u32)> = IndexSet::new(alloc);
    let mut seen = Typs::new(alloc);
    note_term(&mut index, &mut seen, t)?;
    Ok(seen)
}
