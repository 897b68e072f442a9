//! What an operation changed of a term: nothing where it is `None`, so that the part is shared and not rebuilt.
ghost use Rattle.std.specs.Prelude.{◌≡◌, IfOk, unwrap_or};
ghost use Rattle.isa_terms.specs.Terms as tm;

use crate::name::Name;
use crate::term::{Term, TermNode};
use crate::typ::Typ;
use std::alloc::{AllocError, Global};

/// The changed term, or another owner of the one that was there.
pub(crate) fn term_or_copy(changed: Option<Term>, t: &Term) -> Result<Term, AllocError>
    ensures { IfOk result (λ r. r ≡ unwrap_or changed t.now) }
{
    match changed {
        None => t.copy(),
        Some(term) => Ok(term),
    }
}

/// The changed type, or another owner of the one that was there.
pub(crate) fn typ_or_copy(changed: Option<Typ>, typ: &Typ) -> Result<Typ, AllocError>
    ensures { IfOk result (λ r. r ≡ unwrap_or changed typ.now) }
{
    match changed {
        None => typ.copy(),
        Some(typ) => Ok(typ),
    }
}

/// The change of an application by those of its parts.
pub(crate) fn application(
    alloc: Global,
    fun: &Term,
    arg: &Term,
    new_fun: Option<Term>,
    new_arg: Option<Term>,
) -> Result<Option<Term>, AllocError>
    ensures { IfOk result (λ r. unwrap_or r (tm.App fun.now arg.now) ≡ tm.App (unwrap_or new_fun fun.now) (unwrap_or new_arg arg.now)) }
{
    if new_fun.is_none() && new_arg.is_none() {
        return Ok(None);
    }
    let fun = term_or_copy(new_fun, fun)?;
    let arg = term_or_copy(new_arg, arg)?;
    Ok(Some(Term::new(alloc, TermNode::App(fun, arg))?))
}

/// The change of an abstraction by those of its parts.
pub(crate) fn abstraction(
    alloc: Global,
    name: &Name,
    typ: &Typ,
    body: &Term,
    new_typ: Option<Typ>,
    new_body: Option<Term>,
) -> Result<Option<Term>, AllocError>
    ensures { IfOk result (λ r. unwrap_or r (tm.Abs name.now typ.now body.now) ≡ tm.Abs name.now (unwrap_or new_typ typ.now) (unwrap_or new_body body.now)) }
{
    if new_typ.is_none() && new_body.is_none() {
        return Ok(None);
    }
    let typ = typ_or_copy(new_typ, typ)?;
    let body = term_or_copy(new_body, body)?;
    Ok(Some(Term::new(alloc, TermNode::Abs(name.copy()?, typ, body))?))
}
