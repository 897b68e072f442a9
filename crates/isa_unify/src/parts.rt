//! The parts of an equation.

ghost use Rattle.std.specs.Prelude.{◌≡◌, IfOk};
ghost use Rattle.isa_unify.specs.Spines.{head_of, args_of};
ghost use Rattle.isa_unify.specs.Unification.{paired, inner_parts, typed_parts, meet, opened, stripped, parts_at};

use crate::equation::{Binders, Equation, Equations, Variable};
use crate::progress::Parts;
use crate::spines::{args_of, head_of};
use isa_terms::{Name, Term, TermNode, Typ, raised};
use std::alloc::{AllocError, Global};

/// The equations of the arguments from left to right, where there are as many on both sides.
fn paired(
    alloc: Global,
    binders: &Binders,
    left: &[Term],
    right: &[Term],
) -> Result<Option<Equations>, AllocError>
    ensures { IfOk result (λ equations. equations ≡ paired binders.now left.now right.now) }
{
    match (left.split_first(), right.split_first()) {
        (None, None) => Ok(Some(Equations::new(alloc))),
        (Some((t, ts)), Some((u, us))) => match paired(alloc, binders, ts, us)? {
            None => Ok(None),
            Some(mut equations) => {
                equations.put_first(Equation {
                    binders: binders.copy()?,
                    left: t.copy()?,
                    right: u.copy()?,
                })?;
                Ok(Some(equations))
            }
        },
        _ => Ok(None),
    }
}

/// The equations of the arguments of two terms.
fn paired_args(
    alloc: Global,
    binders: &Binders,
    t: &Term,
    u: &Term,
) -> Result<Option<Equations>, AllocError>
    ensures { IfOk result (λ equations. equations ≡ paired binders.now (args_of t.now) (args_of u.now)) }
{
    let left = args_of(alloc, t)?;
    let right = args_of(alloc, u)?;
    paired(alloc, binders, left.as_slice(), right.as_slice())
}

fn inner_parts(equations: Option<Equations>) -> Parts
    ensures { result ≡ inner_parts equations }
{
    match equations {
        None => Parts::Clash,
        Some(equations) => Parts::Into(equations),
    }
}

fn typed_parts(left: Typ, right: Typ, equations: Option<Equations>) -> Parts
    ensures { result ≡ typed_parts left right equations }
{
    match equations {
        None => Parts::Clash,
        Some(equations) => Parts::Heads(left, right, equations),
    }
}

/// Two terms that are no abstractions, by their heads and arguments.
fn meet(alloc: Global, binders: &Binders, t: &Term, u: &Term) -> Result<Parts, AllocError>
    ensures { IfOk result (λ parts. parts ≡ meet binders.now (head_of t.now) (args_of t.now) (head_of u.now) (args_of u.now)) }
{
    match (head_of(t).view(), head_of(u).view()) {
        (TermNode::Unknown(_, _, _), _) | (_, TermNode::Unknown(_, _, _)) => Ok(Parts::Flexible),
        (TermNode::Const(x, left), TermNode::Const(y, right))
        | (TermNode::Free(x, left), TermNode::Free(y, right)) => {
            if x.same(y) {
                let equations = paired_args(alloc, binders, t, u)?;
                Ok(typed_parts(left.copy()?, right.copy()?, equations))
            } else {
                Ok(Parts::Clash)
            }
        }
        (TermNode::Bound(m), TermNode::Bound(n)) => {
            if *m == *n {
                Ok(inner_parts(paired_args(alloc, binders, t, u)?))
            } else {
                Ok(Parts::Clash)
            }
        }
        _ => Ok(Parts::Clash),
    }
}

/// The term applied to the variable of a new binder.
fn opened(alloc: Global, t: &Term) -> Result<Term, AllocError>
    ensures { IfOk result (λ r. r ≡ opened t.now) }
{
    let fun = raised(alloc, 1, 0, t)?;
    let arg = Term::new(alloc, TermNode::Bound(0))?;
    Term::new(alloc, TermNode::App(fun, arg))
}

/// The equation under one more binder.
fn stripped(
    alloc: Global,
    name: &Name,
    typ: &Typ,
    binders: &Binders,
    left: Term,
    right: Term,
) -> Result<Parts, AllocError>
    ensures { IfOk result (λ parts. parts ≡ stripped name.now typ.now binders.now left right) }
{
    let variable = Variable {
        name: name.copy()?,
        typ: typ.copy()?,
    };
    let mut equations = Equations::new(alloc);
    equations.put_first(Equation {
        binders: binders.under(alloc, variable)?,
        left,
        right,
    })?;
    Ok(Parts::Into(equations))
}

/// The parts of an equation. Abstractions are stripped together, and the left one names the
/// variable; a side that is none is applied to it.
#[tactic(auto, unfolding(crate::specs::Unification::parts_at))]
pub fn parts_at(alloc: Global, binders: &Binders, t: &Term, u: &Term) -> Result<Parts, AllocError>
    ensures { IfOk result (λ parts. parts ≡ parts_at binders.now t.now u.now) }
{
    match (t.view(), u.view()) {
        (TermNode::Abs(name, typ, left), TermNode::Abs(_, _, right)) => {
            stripped(alloc, name, typ, binders, left.copy()?, right.copy()?)
        }
        (TermNode::Abs(name, typ, left), _) => {
            stripped(alloc, name, typ, binders, left.copy()?, opened(alloc, u)?)
        }
        (_, TermNode::Abs(name, typ, right)) => {
            stripped(alloc, name, typ, binders, opened(alloc, t)?, right.copy()?)
        }
        _ => meet(alloc, binders, t, u),
    }
}
