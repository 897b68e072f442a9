//! Instances that tell what a match leaves open apart from a theorem's own unknowns.
ghost use Rattle.std.specs.Prelude.{◌≡◌, ◌∷◌, [], IfOk};
ghost use Rattle.isa_terms.specs.Unknowns.{unknowns_of, type_unknowns_of};
ghost use Rattle.isa_simprules.specs.Roles.{types_apart, terms_apart, apart};

use crate::numbers::{least_number, least_type_number};
use isa_terms::{
    Inst, Name, Term, TermNode, Terms, Typ, TypNode, Typs, copied, find_term, find_type, inst_typ,
    type_unknowns_of, unknowns_of,
};
use std::alloc::{AllocError, Global};

/// The instance with types for the type unknowns that it leaves open; `taken` grows by these, latest last.
fn types_apart(
    alloc: Global,
    mut taken: Typs,
    others: &[Typ],
    mut s: Inst,
) -> Result<Inst, AllocError>
    ensures types { IfOk result (λ r. r.types ≡ types_apart taken others.now s.types) }
    ensures terms { IfOk result (λ r. r.terms ≡ s.terms) }
{
    let Some((first, rest)) = others.split_first() else {
        return Ok(s);
    };
    let TypNode::Unknown(name, number) = first.view() else {
        return types_apart(alloc, taken, rest, s);
    };
    if find_type(name, *number, s.types().as_slice()).is_some() {
        return types_apart(alloc, taken, rest, s);
    }
    let least = least_type_number(taken.as_slice(), name)?;
    let unknown = Typ::new(alloc, TypNode::Unknown(name.copy()?, least))?;
    taken.push(unknown.copy()?)?;
    s.put_type(alloc, name.copy()?, *number, unknown)?;
    types_apart(alloc, taken, rest, s)
}

/// The instance with terms for the unknowns that it leaves open.
fn terms_apart(
    alloc: Global,
    mut taken: Terms,
    others: &[Term],
    mut s: Inst,
) -> Result<Inst, AllocError>
    ensures types { IfOk result (λ r. r.types ≡ s.types) }
    ensures terms { IfOk result (λ r. r.terms ≡ terms_apart taken s.types others.now s.terms) }
{
    let Some((first, rest)) = others.split_first() else {
        return Ok(s);
    };
    let TermNode::Unknown(name, number, typ) = first.view() else {
        return terms_apart(alloc, taken, rest, s);
    };
    if find_term(name, *number, typ, s.terms().as_slice()).is_some() {
        return terms_apart(alloc, taken, rest, s);
    }
    let least = least_number(taken.as_slice(), name)?;
    let at = inst_typ(alloc, s.types().as_slice(), typ)?;
    let unknown = Term::new(alloc, TermNode::Unknown(name.copy()?, least, at))?;
    taken.push(unknown.copy()?)?;
    s.put_term(alloc, name.copy()?, *number, typ.copy()?, unknown)?;
    terms_apart(alloc, taken, rest, s)
}

/// The instance, and for each unknown and type unknown of the proposition that it leaves open one that the known terms don't have.
pub(crate) fn apart(alloc: Global, known: &[Term], prop: &Term, s: Inst) -> Result<Inst, AllocError>
    ensures { IfOk result (λ r. r ≡ apart known.now prop.now s) }
{
    let whole = [prop.copy()?];
    let typed = types_apart(
        alloc,
        type_unknowns_of(alloc, known)?,
        type_unknowns_of(alloc, &whole)?.as_slice(),
        s,
    )?;
    terms_apart(
        alloc,
        unknowns_of(alloc, known)?,
        unknowns_of(alloc, &whole)?.as_slice(),
        typed,
    )
}
