//! Rules made ready for resolution.
ghost use Rattle.std.specs.Prelude.{◌≡◌, [], IfOk};
ghost use Rattle.isa_unify.specs.Calls.{past};
ghost use Rattle.isa_subgoal.specs.Renumbering.{renumbered_rule};
ghost use Rattle.isa_resolution.specs.Ready.{normal, numbers_end};

use crate::stating::never_refused;
use isa_kernel::{Thm, instantiate_thm};
use isa_subgoal::renumber_rule;
use isa_terms::{Inst, Term, TermNode, greatest_number};
use std::alloc::{AllocError, Global};

/// The rule in normal form.
#[tactic(auto, using(crate::proofs::Readying::normal_is))]
pub(crate) fn normal(alloc: Global, rule: &Thm) -> Result<Thm, AllocError>
    requires { rule.now.hyps ≡ [] }
    ensures { IfOk result (λ th. th ≡ normal rule.now) }
{
    never_refused(instantiate_thm(alloc, &Inst::new(alloc), rule))
}

/// One more than the greatest number of an unknown or a type unknown of the term, or 0 where it has none.
pub(crate) fn numbers_end(t: &Term) -> Result<u32, AllocError>
    ensures { IfOk result (λ n. n ≡ numbers_end t.now) }
{
    match greatest_number(t) {
        None => Ok(0),
        Some(number) => number.checked_add(1).ok_or(AllocError),
    }
}

/// One more than the greatest number of an unknown of the term, or 0 where it has none.
pub(crate) fn unknowns_end(t: &Term) -> Result<u32, AllocError>
    ensures { IfOk result (λ n. n ≡ past t.now) }
{
    match t.view() {
        TermNode::Unknown(_, number, _) => number.checked_add(1).ok_or(AllocError),
        TermNode::Const(_, _) | TermNode::Free(_, _) | TermNode::Bound(_) => Ok(0),
        TermNode::Abs(_, _, body) => unknowns_end(body),
        TermNode::App(fun, arg) => {
            let left = unknowns_end(fun)?;
            let right = unknowns_end(arg)?;
            Ok(left.max(right))
        }
    }
}

/// The rule in normal form, with the numbers of its unknowns and type unknowns raised by that much.
pub(crate) fn raised(alloc: Global, by: u32, rule: &Thm) -> Result<Thm, AllocError>
    requires { rule.now.hyps ≡ [] }
    ensures { IfOk result (λ th. th ≡ renumbered_rule by (normal rule.now)) }
{
    let rule = normal(alloc, rule)?;
    never_refused(renumber_rule(alloc, by, &rule))
}
