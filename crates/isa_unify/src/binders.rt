//! Abstractions over variables of the binders round a place of a term.

ghost use Rattle.std.specs.Prelude.{◌≡◌, IfOk};
ghost use Rattle.isa_unify.specs.Matching.{over, solution};
ghost use Rattle.isa_unify.specs.BinderLists.{binders_in};

use crate::equation::Binders;
use isa_terms::{Term, TermNode, abstraction};
use std::alloc::{AllocError, Global};

/// The body of the abstraction of t over the variable `number` of the binders round t.
#[tactic(auto, using(crate::proofs::Unvisited::over_same))]
pub fn over(alloc: Global, number: u32, depth: u32, t: &Term) -> Result<Term, AllocError>
    ensures { IfOk result (λ r. r ≡ over number depth t.now) }
{
    if t.loose_end() <= u64::from(depth) {
        return t.copy();
    }
    match t.view() {
        TermNode::Const(_, _) | TermNode::Free(_, _) | TermNode::Unknown(_, _, _) => t.copy(),
        TermNode::Bound(other) => {
            if *other < depth {
                t.copy()
            } else if *other == number.checked_add(depth).ok_or(AllocError)? {
                Term::new(alloc, TermNode::Bound(depth))
            } else {
                Term::new(
                    alloc,
                    TermNode::Bound(other.checked_add(1).ok_or(AllocError)?),
                )
            }
        }
        TermNode::Abs(name, typ, body) => {
            let body = over(alloc, number, depth.checked_add(1).ok_or(AllocError)?, body)?;
            Term::new(alloc, TermNode::Abs(name.copy()?, typ.copy()?, body))
        }
        TermNode::App(fun, arg) => {
            let fun = over(alloc, number, depth, fun)?;
            let arg = over(alloc, number, depth, arg)?;
            Term::new(alloc, TermNode::App(fun, arg))
        }
    }
}

/// The abstraction of t over the variables with these numbers, where there are such.
#[tactic(auto, using(crate::proofs::Mapped::get_mapped))]
pub fn solution(
    alloc: Global,
    binders: &Binders,
    args: &[u32],
    t: &Term,
) -> Result<Option<Term>, AllocError>
    ensures { IfOk result (λ found. found ≡ solution (binders_in binders.now) args.now t.now) }
{
    match args.split_first() {
        None => Ok(Some(t.copy()?)),
        Some((number, rest)) => {
            let Some(variable) = binders.get(*number) else {
                return Ok(None);
            };
            let Some(inner) = solution(alloc, binders, rest, t)? else {
                return Ok(None);
            };
            let body = over(alloc, *number, 0, &inner)?;
            Ok(Some(abstraction(alloc, &variable.name, &variable.typ, body)?))
        }
    }
}
