//! What a fact of the logic makes of a theorem.
ghost use Rattle.std.specs.Prelude.{◌≡◌, ◌++◌, ◌∷◌, IfOk, Option};
ghost use Rattle.isa_simprules.specs.Roles.{normal, by_match, by_fact, by_facts};
ghost use Rattle.isa_simprules.specs.RulesOf.{by_first};
ghost use Rattle.isa_kernel.specs.Theorem.{Theorem};
ghost use Rattle.isa_kernel.specs.Inferences.{Answers};

use crate::apart::apart;
use isa_kernel::{InferenceError, Thm, Thms, instantiate_thm, split_imp};
use isa_subgoal::{conclusion, cut, split_all_premises};
use isa_terms::{Inst, Term, Terms, copied};
use isa_unify::match_pattern;
use std::alloc::{AllocError, Global};

/// The theorem, where the inference isn't refused.
pub(crate) fn if_granted(answer: Result<Thm, InferenceError>) -> Result<Option<Thm>, AllocError>
    ensures { IfOk result (λ o. (wanted : Option Theorem) → Answers answer wanted → o ≡ wanted) }
{
    match answer {
        Ok(th) => Ok(Some(th)),
        Err(InferenceError::Shape) => Ok(None),
        Err(InferenceError::Memory) => Err(AllocError),
    }
}

/// The theorem in normal form.
#[tactic(auto, using(crate::proofs::Normalised::normal_stays, crate::proofs::Normalised::normal_made))]
pub(crate) fn normal(alloc: Global, th: &Thm) -> Result<Thm, AllocError>
    ensures { IfOk result (λ r. r ≡ normal th.now) }
{
    if th.prop().is_normal() {
        return th.copy(alloc);
    }
    match instantiate_thm(alloc, &Inst::new(alloc), th) {
        Ok(made) => Ok(made),
        Err(_) => Err(AllocError),
    }
}

/// The proposition of a theorem and its hypotheses.
pub(crate) fn stated(alloc: Global, th: &Thm) -> Result<Terms, AllocError>
    ensures { IfOk result (λ r. r ≡ th.now.prop ∷ th.now.hyps) }
{
    let mut all = Terms::new(alloc);
    all.push(th.prop().copy()?)?;
    let hyps = th.hyps().as_slice();
    for hyp in hyps {
        all.push(hyp.copy()?)?;
    }
    Ok(all)
}

/// Of a theorem `As ==> B` and a fact `B1 ==> Bs ==> C` whose premise B1 matches B: `As ==> Bs ==> C` at that instance of Bs and C.
#[tactic(auto, using(crate::proofs::Granting::no_premise, crate::proofs::Granting::no_match, crate::proofs::Granting::not_made, crate::proofs::Granting::made_cut))]
fn by_match(alloc: Global, fact: &Thm, th: &Thm) -> Result<Option<Thm>, AllocError>
    ensures { IfOk result (λ o. o ≡ by_match fact.now th.now) }
{
    let Some((pattern, _)) = split_imp(fact.prop()) else {
        return Ok(None);
    };
    let form = split_all_premises(th.prop(), Terms::new(alloc))?;
    let Some(found) = match_pattern(alloc, pattern, &form.conclusion)? else {
        return Ok(None);
    };
    let known = stated(alloc, th)?;
    let s = apart(alloc, known.as_slice(), fact.prop(), found)?;
    let instance = instantiate_thm(alloc, &s, fact);
    let Some(made) = if_granted(instance)? else {
        return Ok(None);
    };
    let answer = cut(alloc, &[], form.premises.as_slice(), &made, th);
    if_granted(answer)
}

/// What a fact without hypotheses makes of the theorem.
fn by_fact(alloc: Global, fact: &Thm, th: &Thm) -> Result<Option<Thm>, AllocError>
    ensures { IfOk result (λ o. o ≡ by_fact fact.now th.now) }
{
    match fact.hyps().as_slice().split_first() {
        None => by_match(alloc, fact, th),
        Some(_) => Ok(None),
    }
}

/// What those of the facts make of the theorem whose first premise matches, in their order, behind what is done.
pub(crate) fn by_facts(
    alloc: Global,
    facts: &[Thm],
    th: &Thm,
    mut done: Thms,
) -> Result<Thms, AllocError>
    ensures { IfOk result (λ r. r ≡ done ++ by_facts facts.now th.now) }
{
    let Some((first, rest)) = facts.split_first() else {
        return Ok(done);
    };
    if let Some(made) = by_fact(alloc, first, th)? {
        done.push(made)?;
        return by_facts(alloc, rest, th, done);
    }
    by_facts(alloc, rest, th, done)
}

/// What the first of the facts makes of the theorem whose premise matches.
pub(crate) fn by_first(alloc: Global, facts: &[Thm], th: &Thm) -> Result<Option<Thm>, AllocError>
    ensures { IfOk result (λ o. o ≡ by_first facts.now th.now) }
{
    for fact in facts {
        if let Some(made) = by_fact(alloc, fact, th)? {
            return Ok(Some(made));
        }
    }
    Ok(None)
}
