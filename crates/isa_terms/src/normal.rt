ghost use Rattle.std.specs.Prelude.{◌≡◌, IfOk};
ghost use Rattle.isa_terms.specs.Terms as tm;
ghost use Rattle.isa_terms.specs.Norm.{ty_height, eta, put_normal, apply, levels, norm};

use crate::facts::is_loose;
use crate::name::Name;
use crate::replace::{raised, replaced};
use crate::term::{Term, TermNode};
use crate::typ::Typ;
use std::alloc::{AllocError, Global};

/// How deeply a type is nested; no type is nested deeper than a u64 counts.
pub fn height(typ: &Typ) -> Result<u64, AllocError>
    ensures { IfOk result (λ n. n ≡ ty_height typ.now) }
{
    Ok(typ.facts().height)
}

/// The abstraction over the body, eta short.
pub fn abstraction(alloc: Global, name: &Name, typ: &Typ, body: Term) -> Result<Term, AllocError>
    ensures { IfOk result (λ t. t ≡ eta name.now typ.now body) }
{
    if let TermNode::App(fun, arg) = body.view() {
        if let TermNode::Bound(0) = arg.view() {
            if !is_loose(0, fun)? {
                return replaced(alloc, fun, arg);
            }
        }
    }
    Term::new(alloc, TermNode::Abs(name.copy()?, typ.copy()?, body))
}

/// The argument in the place of the variable `depth` of as many binders.
#[cycle(normal)]
#[tactic(auto, using(crate::proofs::Shared::put_normal_same))]
fn put_normal(
    alloc: Global,
    levels: u64,
    argument: &Term,
    depth: u32,
    body: &Term,
) -> Result<Term, AllocError>
    ensures { IfOk result (λ t. t ≡ put_normal (apply levels) argument.now depth body.now) }
{
    if body.facts().is_normal && body.facts().loose_end <= u64::from(depth) {
        return body.copy();
    }
    match body.view() {
        TermNode::Const(_, _) | TermNode::Free(_, _) | TermNode::Unknown(_, _, _) => body.copy(),
        TermNode::Bound(number) => {
            if *number == depth {
                raised(alloc, depth, 0, argument)
            } else if depth < *number {
                Term::new(alloc, TermNode::Bound(*number - 1))
            } else {
                body.copy()
            }
        }
        TermNode::Abs(name, typ, inner) => {
            let under = depth.checked_add(1).ok_or(AllocError)?;
            let inner = put_normal(alloc, levels, argument, under, inner)?;
            abstraction(alloc, name, typ, inner)
        }
        TermNode::App(fun, arg) => {
            let fun = put_normal(alloc, levels, argument, depth, fun)?;
            let arg = put_normal(alloc, levels, argument, depth, arg)?;
            apply(alloc, levels, &fun, &arg)
        }
    }
}

/// The function applied to the argument, for variables whose types are nested at most so deep.
#[cycle(normal)]
#[tactic(auto, using(crate::proofs::Steps::apply_step))]
fn apply(alloc: Global, levels: u64, fun: &Term, arg: &Term) -> Result<Term, AllocError>
    ensures { IfOk result (λ t. t ≡ apply levels fun.now arg.now) }
{
    if levels == 0 {
        return applied(alloc, fun, arg);
    }
    match fun.view() {
        TermNode::Abs(_, _, body) => put_normal(alloc, levels - 1, arg, 0, body),
        _ => applied(alloc, fun, arg),
    }
}

/// The application as it stands.
fn applied(alloc: Global, fun: &Term, arg: &Term) -> Result<Term, AllocError>
    ensures { IfOk result (λ t. t ≡ tm.App fun.now arg.now) }
{
    Term::new(alloc, TermNode::App(fun.copy()?, arg.copy()?))
}

/// How deeply the type of an abstraction's variable is nested.
fn levels(fun: &Term) -> Result<u64, AllocError>
    ensures { IfOk result (λ n. n ≡ levels fun.now) }
{
    match fun.view() {
        TermNode::Abs(_, typ, _) => height(typ),
        _ => Ok(0),
    }
}

/// The normal form of a well-typed term: beta normal and eta short.
#[tactic(auto, using(crate::proofs::Shared::norm_stays))]
pub fn norm(alloc: Global, t: &Term) -> Result<Term, AllocError>
    ensures { IfOk result (λ r. r ≡ norm t.now) }
{
    if t.facts().is_normal {
        return t.copy();
    }
    match t.view() {
        TermNode::Const(_, _)
        | TermNode::Free(_, _)
        | TermNode::Unknown(_, _, _)
        | TermNode::Bound(_) => t.copy(),
        TermNode::Abs(name, typ, body) => {
            let body = norm(alloc, body)?;
            abstraction(alloc, name, typ, body)
        }
        TermNode::App(fun, arg) => {
            let fun = norm(alloc, fun)?;
            let arg = norm(alloc, arg)?;
            apply(alloc, levels(&fun)?, &fun, &arg)
        }
    }
}
