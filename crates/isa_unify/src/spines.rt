//! Heads, arguments, and the variables to which an unknown is applied.

ghost use Rattle.std.specs.Prelude.{◌≡◌, IfOk};
ghost use Rattle.isa_unify.specs.Spines.{head_of, args_of, is_flexible, has_number, are_distinct, bounds_of, distinct_bounds};

use crate::numbers::Numbers;
use isa_terms::{Term, TermNode, Terms, head};
use std::alloc::{AllocError, Global};

/// What is applied to the arguments of the term.
#[tactic(auto, using(crate::proofs::Mapped::same_head))]
pub fn head_of(t: &Term) -> &Term
    ensures { result.now ≡ head_of t.now }
{
    head(t)
}

/// The arguments of the term, from left to right.
#[tactic(auto, using(crate::proofs::Mapped::same_args))]
pub fn args_of(alloc: Global, t: &Term) -> Result<Terms, AllocError>
    ensures { IfOk result (λ args. args ≡ args_of t.now) }
{
    isa_terms::args_of(alloc, t)
}

/// Whether the head is an unknown.
pub fn is_flexible(t: &Term) -> bool
    ensures { result ≡ is_flexible t.now }
{
    match t.view() {
        TermNode::Unknown(_, _, _) => true,
        TermNode::App(fun, _) => is_flexible(fun),
        _ => false,
    }
}

pub fn has_number(numbers: &[u32], number: u32) -> bool
    ensures { result ≡ has_number numbers.now number }
{
    match numbers.split_first() {
        None => false,
        Some((first, rest)) => *first == number || has_number(rest, number),
    }
}

fn are_distinct(numbers: &[u32]) -> bool
    ensures { result ≡ are_distinct numbers.now }
{
    match numbers.split_first() {
        None => true,
        Some((first, rest)) => !has_number(rest, *first) && are_distinct(rest),
    }
}

/// The numbers of the terms, where all are bound variables.
fn bounds_of(alloc: Global, terms: &[Term]) -> Result<Option<Numbers>, AllocError>
    ensures { IfOk result (λ numbers. numbers ≡ bounds_of terms.now) }
{
    let mut numbers = Numbers::new(alloc);
    for t in terms {
        match t.view() {
            TermNode::Bound(number) => numbers.push(*number)?,
            _ => return Ok(None),
        }
    }
    Ok(Some(numbers))
}

/// The numbers of the terms, where all are bound variables and no two are the same.
pub fn distinct_bounds(alloc: Global, terms: &[Term]) -> Result<Option<Numbers>, AllocError>
    ensures { IfOk result (λ numbers. numbers ≡ distinct_bounds terms.now) }
{
    match bounds_of(alloc, terms)? {
        None => Ok(None),
        Some(numbers) => {
            if are_distinct(numbers.as_slice()) {
                Ok(Some(numbers))
            } else {
                Ok(None)
            }
        }
    }
}
