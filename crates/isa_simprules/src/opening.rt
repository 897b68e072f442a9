//! Theorems whose outer quantifiers are opened into unknowns.
ghost use Rattle.std.specs.Prelude.{◌≡◌, IfOk, codes};
ghost use Rattle.isa_simprules.specs.Opening.{quantifiers, variable_of, opened_once, opened_often, opened};

use crate::numbers::least_number;
use crate::roles::{if_granted, stated};
use isa_kernel::{Thm, forall_elim, split_quantifier};
use isa_terms::{Name, Term, TermNode, unknowns_of};
use std::alloc::{AllocError, Global};

/// How often `!!` stands in the term.
#[tactic(auto, using(crate::proofs::Counted::all_there, crate::proofs::Counted::no_all))]
fn quantifiers(t: &Term) -> Result<usize, AllocError>
    ensures { IfOk result (λ n. n ≡ quantifiers t.now) }
{
    match t.view() {
        TermNode::Const(name, _) => {
            if name.is_text("Pure.all") {
                Ok(1)
            } else {
                Ok(0)
            }
        }
        TermNode::Free(_, _) | TermNode::Unknown(_, _, _) | TermNode::Bound(_) => Ok(0),
        TermNode::Abs(_, _, body) => quantifiers(body),
        TermNode::App(fun, arg) => {
            let left = quantifiers(fun)?;
            left.checked_add(quantifiers(arg)?).ok_or(AllocError)
        }
    }
}

/// The name of the variable of `!!` over the predicate.
fn variable_of(alloc: Global, predicate: &Term) -> Result<Name, AllocError>
    ensures { IfOk result (λ name. name ≡ variable_of predicate.now) }
{
    match predicate.view() {
        TermNode::Abs(name, _, _) => name.copy(),
        _ => Name::from_text(alloc, "x"),
    }
}

/// `B` of `!!x. B` at the unknown `?x` with the least number that no unknown of that name in the theorem has.
#[tactic(auto, using(crate::proofs::Granting::once_none, crate::proofs::Granting::once_granted))]
fn opened_once(alloc: Global, th: &Thm) -> Result<Option<Thm>, AllocError>
    ensures { IfOk result (λ o. o ≡ opened_once th.now) }
{
    let Some((typ, predicate)) = split_quantifier(th.prop()) else {
        return Ok(None);
    };
    let name = variable_of(alloc, predicate)?;
    let known = unknowns_of(alloc, stated(alloc, th)?.as_slice())?;
    let number = least_number(known.as_slice(), &name)?;
    let unknown = Term::new(alloc, TermNode::Unknown(name, number, typ.copy()?))?;
    let answer = forall_elim(alloc, &unknown, th);
    if_granted(answer)
}

/// The same again and again, as long as `!!` stands in front, but at most so many times.
#[tactic(auto, using(crate::proofs::Counted::opened_none, crate::proofs::Counted::opened_some))]
fn opened_often(alloc: Global, count: usize, th: Thm) -> Result<Thm, AllocError>
    ensures { IfOk result (λ r. r ≡ opened_often count th) }
{
    if count == 0 {
        return Ok(th);
    }
    match opened_once(alloc, &th)? {
        None => Ok(th),
        Some(next) => opened_often(alloc, count - 1, next),
    }
}

/// The theorem without `!!` in front.
pub(crate) fn opened(alloc: Global, th: Thm) -> Result<Thm, AllocError>
    ensures { IfOk result (λ r. r ≡ opened th) }
{
    let count = quantifiers(th.prop())?;
    opened_often(alloc, count, th)
}
