//! Types and terms under what is found.

ghost use Rattle.std.specs.Prelude.{◌≡◌, IfOk, OnOk};
ghost use Rattle.isa_terms.specs.Types.{tys_of};
ghost use Rattle.isa_typing.specs.Found.{found_in, MeansType, MeansTypes, MeansTerm, Keeps};

use crate::solving::{DEPTH, bind, found_at};
use indexmap::IndexMap;
use isa_terms::{Name, Term, TermNode, Typ, TypNode, Typs};
use std::alloc::{AllocError, Global};

/// Keeps the type of a variable.
#[tactic(auto, using(crate::proofs::Meant::keeps_more))]
fn keep(
    found: &IndexMap<(Name, u32), Typ>,
    kept: &mut IndexMap<(Name, u32), Typ>,
    variable: &Typ,
    typ: &Typ,
) -> Result<(), AllocError>
    requires kept { Keeps (found_in found.now.entries) (found_in kept.now.entries) }
    requires means { MeansType (found_in found.now.entries) variable.now typ.now }
    ensures { OnOk result (Keeps (found_in found.now.entries) (found_in kept.new.entries)) }
{
    match variable.view() {
        TypNode::Unknown(name, number) => {
            bind(kept, name, *number, typ)?;
            Ok(())
        }
        TypNode::Con(_, _) | TypNode::Fixed(_) => Ok(()),
    }
}

/// The type under what is found. The types of variables that are met are kept.
#[cycle(resolved)]
#[tactic(auto, using(crate::proofs::Meant::means_closed, crate::proofs::Meant::means_fixed, crate::proofs::Meant::means_open, crate::proofs::Meant::means_kept, crate::proofs::Meant::means_bound, crate::proofs::Meant::means_constructor))]
fn resolved_typ(
    alloc: Global,
    found: &IndexMap<(Name, u32), Typ>,
    kept: &mut IndexMap<(Name, u32), Typ>,
    typ: &Typ,
    depth: u32,
) -> Result<Typ, AllocError>
    requires { Keeps (found_in found.now.entries) (found_in kept.now.entries) }
    ensures typ { IfOk result (λ t. MeansType (found_in found.now.entries) typ.now t) }
    ensures kept { OnOk result (Keeps (found_in found.now.entries) (found_in kept.new.entries)) }
{
    if depth == 0 {
        return Err(AllocError);
    }
    if !typ.has_unknowns() {
        return Ok(typ.copy()?);
    }
    if let Some(there) = found_at(kept, typ)? {
        return Ok(there);
    }
    if let Some(bound) = found_at(found, typ)? {
        let end = resolved_typ(alloc, found, kept, &bound, depth - 1)?;
        keep(found, kept, typ, &end)?;
        return Ok(end);
    }
    match typ.view() {
        TypNode::Con(name, args) => {
            let args = resolved_typs(
                alloc,
                found,
                kept,
                args.as_slice(),
                Typs::new(alloc),
                depth - 1,
            )?;
            Ok(Typ::new(alloc, TypNode::Con(name.copy()?, args))?)
        }
        TypNode::Fixed(_) => Ok(typ.copy()?),
        TypNode::Unknown(_, _) => Ok(typ.copy()?),
    }
}

/// `done` with the arguments so changed behind it.
#[cycle(resolved)]
#[tactic(auto, using(crate::proofs::Meant::means_no_types, crate::proofs::Meant::means_more_types))]
fn resolved_typs(
    alloc: Global,
    found: &IndexMap<(Name, u32), Typ>,
    kept: &mut IndexMap<(Name, u32), Typ>,
    args: &[Typ],
    mut done: Typs,
    depth: u32,
) -> Result<Typs, AllocError>
    requires { Keeps (found_in found.now.entries) (found_in kept.now.entries) }
    ensures typs { IfOk result (λ ts. MeansTypes (found_in found.now.entries) (tys_of args.now) done ts) }
    ensures kept { OnOk result (Keeps (found_in found.now.entries) (found_in kept.new.entries)) }
{
    if depth == 0 {
        return Err(AllocError);
    }
    match args.split_first() {
        None => Ok(done),
        Some((first, rest)) => {
            let typ = resolved_typ(alloc, found, kept, first, depth - 1)?;
            done.push(typ)?;
            let all = resolved_typs(alloc, found, kept, rest, done, depth - 1)?;
            Ok(all)
        }
    }
}

/// The term with its types under what is found.
#[tactic(auto, using(crate::proofs::Meant::means_const, crate::proofs::Meant::means_free, crate::proofs::Meant::means_unknown, crate::proofs::Meant::means_variable, crate::proofs::Meant::means_abstraction, crate::proofs::Meant::means_application))]
fn resolved_term(
    alloc: Global,
    found: &IndexMap<(Name, u32), Typ>,
    kept: &mut IndexMap<(Name, u32), Typ>,
    t: &Term,
) -> Result<Term, AllocError>
    requires { Keeps (found_in found.now.entries) (found_in kept.now.entries) }
    ensures term { IfOk result (λ u. MeansTerm (found_in found.now.entries) t.now u) }
    ensures kept { OnOk result (Keeps (found_in found.now.entries) (found_in kept.new.entries)) }
{
    match t.view() {
        TermNode::Const(name, typ) => {
            let typ = resolved_typ(alloc, found, kept, typ, DEPTH)?;
            Ok(Term::new(alloc, TermNode::Const(name.copy()?, typ))?)
        }
        TermNode::Free(name, typ) => {
            let typ = resolved_typ(alloc, found, kept, typ, DEPTH)?;
            Ok(Term::new(alloc, TermNode::Free(name.copy()?, typ))?)
        }
        TermNode::Unknown(name, number, typ) => {
            let typ = resolved_typ(alloc, found, kept, typ, DEPTH)?;
            Ok(Term::new(alloc, TermNode::Unknown(name.copy()?, *number, typ))?)
        }
        TermNode::Bound(number) => Ok(Term::new(alloc, TermNode::Bound(*number))?),
        TermNode::Abs(name, typ, body) => {
            let typ = resolved_typ(alloc, found, kept, typ, DEPTH)?;
            let body = resolved_term(alloc, found, kept, body)?;
            Ok(Term::new(alloc, TermNode::Abs(name.copy()?, typ, body))?)
        }
        TermNode::App(fun, arg) => {
            let fun = resolved_term(alloc, found, kept, fun)?;
            let arg = resolved_term(alloc, found, kept, arg)?;
            Ok(Term::new(alloc, TermNode::App(fun, arg))?)
        }
    }
}

/// The term with its types under what is found.
#[tactic(auto, using(crate::proofs::Meant::keeps_empty))]
pub(crate) fn term_under(
    alloc: Global,
    found: &IndexMap<(Name, u32), Typ>,
    t: &Term,
) -> Result<Term, AllocError>
    ensures { IfOk result (λ u. MeansTerm (found_in found.now.entries) t.now u) }
{
    let mut kept: IndexMap<(Name, u32), Typ> = IndexMap::new(alloc);
    resolved_term(alloc, found, &mut kept, t)
}
