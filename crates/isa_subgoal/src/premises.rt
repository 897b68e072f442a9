//! Propositions and theorems as premises and a conclusion.
ghost use Rattle.std.specs.Prelude.{◌≡◌, ◌++◌, IfOk, List, option_map};
ghost use Rattle.isa_terms.specs.Terms.{Tm};
ghost use Rattle.std.specs.Option.{option_copied};
ghost use Rattle.isa_kernel.specs.Derived.{conclusion_behind};
ghost use Rattle.isa_subgoal.specs.Premises.{leading, premises, conclusion, is_all, premises_of, rule_form};

use isa_kernel::{Thm, split_imp};
use isa_terms::{Term, TermNode, Terms, same_term};
use std::alloc::{AllocError, Global};

/// The premises of a rule, and its conclusion.
#[derive(Drop)]
pub struct Premises {
    pub premises: Terms,
    pub conclusion: Term,
}

/// The first premises of a proposition, behind those that are done.
fn split_premises(
    alloc: Global,
    count: usize,
    t: &Term,
    mut done: Terms,
) -> Result<Option<Premises>, AllocError>
    ensures { IfOk result (λ found. option_map {U = List Tm × Tm} (λ r. (r.premises, r.conclusion)) found ≡ option_map (λ p. (done ++ p.0, p.1)) (premises_of count t.now)) }
{
    if count == 0 {
        return Ok(Some(Premises {
            premises: done,
            conclusion: t.copy()?,
        }));
    }
    let Some((first, rest)) = split_imp(t) else {
        return Ok(None);
    };
    done.push(first.copy()?)?;
    split_premises(alloc, count - 1, rest, done)
}

/// What stands behind the premises of a proposition.
#[tactic(auto, using(crate::proofs::Counts::imp_smaller, crate::proofs::Counts::conclusion_step, crate::proofs::Counts::conclusion_none))]
pub fn conclusion(t: &Term) -> &Term
    ensures { result.now ≡ conclusion t.now }
{
    match split_imp(t) {
        None => t,
        Some((_, rest)) => conclusion(rest),
    }
}

/// What stands behind the premises named, where the proposition has these first.
pub(crate) fn conclusion_behind<'t>(premises: &[Term], t: &'t Term) -> Option<&'t Term>
    ensures { option_copied result ≡ conclusion_behind premises.now t.now }
{
    match premises.split_first() {
        None => Some(t),
        Some((first, rest)) => {
            let (left, right) = split_imp(t)?;
            if same_term(left, first) {
                conclusion_behind(rest, right)
            } else {
                None
            }
        }
    }
}

/// Whether it is `!!` of something.
pub fn is_all(t: &Term) -> bool
    ensures { result ≡ is_all t.now }
{
    match t.view() {
        TermNode::App(fun, _) => match fun.view() {
            TermNode::Const(name, _) => name.is_text("Pure.all"),
            _ => false,
        },
        _ => false,
    }
}

/// All premises of a proposition, behind those that are done, and what stands behind them.
#[tactic(auto, using(crate::proofs::Counts::imp_smaller))]
pub fn split_all_premises(t: &Term, mut done: Terms) -> Result<Premises, AllocError>
    ensures premises { IfOk result (λ r. r.premises ≡ done ++ premises t.now) }
    ensures conclusion { IfOk result (λ r. r.conclusion ≡ conclusion t.now) }
{
    match split_imp(t) {
        None => Ok(Premises {
            premises: done,
            conclusion: t.copy()?,
        }),
        Some((first, rest)) => {
            done.push(first.copy()?)?;
            split_all_premises(rest, done)
        }
    }
}

/// The first premises of a proposition, behind those that are done, or all where there are fewer.
#[tactic(auto, using(crate::proofs::Rotating::leading_none, crate::proofs::Rotating::leading_step))]
pub fn split_leading(count: usize, t: &Term, mut done: Terms) -> Result<Premises, AllocError>
    ensures premises { IfOk result (λ r. r.premises ≡ done ++ (leading count t.now).0) }
    ensures conclusion { IfOk result (λ r. r.conclusion ≡ (leading count t.now).1) }
{
    if count == 0 {
        return Ok(Premises {
            premises: done,
            conclusion: t.copy()?,
        });
    }
    match split_imp(t) {
        None => Ok(Premises {
            premises: done,
            conclusion: t.copy()?,
        }),
        Some((first, rest)) => {
            done.push(first.copy()?)?;
            split_leading(count - 1, rest, done)
        }
    }
}

/// The premises and the conclusion of a theorem without hypotheses that has that many premises.
pub fn split_rule(alloc: Global, count: usize, th: &Thm) -> Result<Option<Premises>, AllocError>
    ensures { IfOk result (λ found. option_map {U = List Tm × Tm} (λ r. (r.premises, r.conclusion)) found ≡ rule_form count th.now) }
{
    match th.hyps().as_slice().split_first() {
        Some(_) => Ok(None),
        None => split_premises(alloc, count, th.prop(), Terms::new(alloc)),
    }
}
