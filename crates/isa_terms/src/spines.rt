//! The arguments of a term, and a head applied to arguments.
ghost use Rattle.std.specs.Prelude.{◌≡◌, ◌++◌, IfOk, OnOk};
ghost use Rattle.isa_terms.specs.Order.{head_of, arity};
ghost use Rattle.isa_terms.specs.Spines.{args_of, applied_to};

use crate::term::{Term, TermNode};
use crate::terms::Terms;
use std::alloc::{AllocError, Global};

/// To how many arguments the head of the term is applied.
pub fn arity(t: &Term) -> Result<usize, AllocError>
    ensures { IfOk result (λ n. n ≡ arity t.now) }
{
    match t.view() {
        TermNode::App(fun, _) => arity(fun)?.checked_add(1).ok_or(AllocError),
        _ => Ok(0),
    }
}

fn push_args(t: &Term, args: &mut Terms) -> Result<(), AllocError>
    ensures { OnOk result (args.new ≡ args.old ++ args_of t.now) }
{
    match t.view() {
        TermNode::App(fun, arg) => {
            push_args(fun, args)?;
            args.push(arg.copy()?)
        }
        _ => Ok(()),
    }
}

/// The arguments to which the head of the term is applied, from left to right. `applied_to` is the way back.
#[tactic(auto, using(crate::proofs::HeadsApplied::head_applied))]
pub fn args_of(alloc: Global, t: &Term) -> Result<Terms, AllocError>
    ensures args { IfOk result (λ args. args ≡ args_of t.now) }
    ensures back { IfOk result (λ args. applied_to (head_of t.now) args ≡ t.now) }
{
    let mut args = Terms::new(alloc);
    push_args(t, &mut args)?;
    Ok(args)
}

/// The head applied to the arguments, from left to right.
pub fn applied_to(alloc: Global, head: &Term, args: &[Term]) -> Result<Term, AllocError>
    ensures { IfOk result (λ t. t ≡ applied_to head.now args.now) }
{
    let mut t = head.copy()?;
    for arg in args {
        t = Term::new(alloc, TermNode::App(t, arg.copy()?))?;
    }
    Ok(t)
}
