//! Composition of two rules.
ghost use Rattle.std.specs.Prelude.{◌≡◌, [], ◌∷◌, ◌++◌, map, Some, None, IfOk};
ghost use Rattle.isa_terms.specs.Instance.{instance_of};
ghost use Rattle.isa_kernel.specs.Axioms.{joined_bases};
ghost use Rattle.isa_resolution.specs.Compose.{composed_under, composed_apart, composed};

use crate::places::around;
use crate::ready::{normal, numbers_end, raised, unknowns_end};
use crate::stating::{add_instances, instance, stated};
use crate::unifiers::answer_of;
use isa_kernel::{InferenceError, Thm, discharge, implies_elim, instantiate_thm, undischarge};
use isa_subgoal::{conclusion, make_implies, spliced, split_all_premises};
use isa_terms::{Inst, Term, Terms, instantiate};
use isa_unify::{TermPair, Unified};
use std::alloc::{AllocError, Global};

/// From a theorem `us ==> B ==> vs ==> C` and a rule `bs ==> B`, the theorem `us ==> vs ==> bs ==> C`.
fn join(
    alloc: Global,
    before: &[Term],
    behind: &[Term],
    premises: &[Term],
    all: &[Term],
    th: &Thm,
    rule: &Thm,
) -> Result<Thm, InferenceError>
    ensures { IfOk result (λ r. r.base ≡ joined_bases th.now.base rule.now.base) }
{
    let front = undischarge(alloc, before, th)?;
    let met = undischarge(alloc, premises, rule)?;
    let middle = implies_elim(alloc, &front, &met)?;
    let last = undischarge(alloc, behind, &middle)?;
    let whole = discharge(alloc, all, &last)?;
    Ok(whole)
}

/// `join`, where it isn't refused.
fn joined(
    alloc: Global,
    before: &[Term],
    behind: &[Term],
    premises: &[Term],
    all: &[Term],
    th: &Thm,
    rule: &Thm,
) -> Result<Thm, AllocError>
    ensures { IfOk result (λ r. r.base ≡ joined_bases th.now.base rule.now.base) }
{
    match join(alloc, before, behind, premises, all, th, rule) {
        Ok(whole) => Ok(whole),
        Err(_) => Err(AllocError),
    }
}

/// The theorem of the other premises of a rule, those of the other one, and its conclusion, all under the instance.
fn compose_under(
    alloc: Global,
    inst: &Inst,
    r: &Thm,
    s: &Thm,
    before: &[Term],
    premise: &Term,
    behind: &[Term],
) -> Result<Thm, AllocError>
    ensures { IfOk result (λ th. th ≡ composed_under inst.now r.now s.now (before.now, premise.now, behind.now)) }
{
    let rule = instance(alloc, inst, r)?;
    let onto = instance(alloc, inst, s)?;
    let form = split_all_premises(r.prop(), Terms::new(alloc))?;
    let front = add_instances(alloc, inst, before, Terms::new(alloc))?;
    let back = add_instances(alloc, inst, behind, Terms::new(alloc))?;
    let news = add_instances(alloc, inst, form.premises.as_slice(), Terms::new(alloc))?;
    let others = spliced(alloc, front.as_slice(), back.as_slice(), news.as_slice())?;
    let goal = instantiate(alloc, inst, conclusion(s.prop()))?;
    let th = joined(
        alloc,
        front.as_slice(),
        back.as_slice(),
        news.as_slice(),
        others.as_slice(),
        &onto,
        &rule,
    )?;
    let wanted = make_implies(alloc, others.as_slice(), &goal)?;
    stated(alloc, &wanted, &th)
}

/// The composition of two rules in normal form that share no numbers.
fn compose_apart(alloc: Global, r: &Thm, s: &Thm, place: usize) -> Result<Option<Thm>, AllocError>
    ensures { IfOk result (λ o. o ≡ composed_apart r.now s.now place) }
{
    let onto = split_all_premises(s.prop(), Terms::new(alloc))?;
    let Some((before, premise, behind)) = around(onto.premises.as_slice(), place) else {
        return Ok(None);
    };
    let pair = [TermPair {
        left: conclusion(r.prop()).copy()?,
        right: premise.copy()?,
    }];
    let next = unknowns_end(r.prop())?.max(unknowns_end(s.prop())?);
    match answer_of(alloc, &pair, next)? {
        Unified::Yes(inst) => Ok(Some(compose_under(alloc, &inst, r, s, before, premise, behind)?)),
        Unified::No | Unified::Outside => Ok(None),
    }
}

/// The rule of the conclusion of `s` whose premises are the other ones of `s` and then those of `r`, whose conclusion meets
/// the premise of `s` at the place, counted from 1; all under the instance that unification finds.
///
/// The numbers of the unknowns and type unknowns of `r` are first raised by one more than the greatest number of those of
/// `s`, or by 0 where it has none, and new unknowns are numbered behind those of both. `None` comes exactly where `s` has
/// no such premise or unification doesn't answer Yes, and for a theorem with hypotheses, which is no rule. Rules count in
/// normal form.
pub fn compose_rules(
    alloc: Global,
    r: &Thm,
    s: &Thm,
    place: usize,
) -> Result<Option<Thm>, AllocError>
    ensures { IfOk result (λ o. o ≡ composed r.now s.now place) }
{
    if r.hyps().len() > 0 || s.hyps().len() > 0 {
        return Ok(None);
    }
    let onto = normal(alloc, s)?;
    let by = numbers_end(onto.prop())?;
    let rule = raised(alloc, by, r)?;
    compose_apart(alloc, &rule, &onto, place)
}
