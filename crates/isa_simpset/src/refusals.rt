//! Why a simpset refuses rules.
ghost use Rattle.std.specs.Prelude.{◌≡◌, ◌++◌, ◌∷◌, [], IfOk, Some, None, option_map};
ghost use Rattle.std.specs.Option.{option_copied};
ghost use Rattle.isa_simpset.specs.Refusals.{first_extra, extra_on_right, extra, first_extra_of, are_patterns, rules_refusal, is_split_side, is_split, only_rule, split_of, split_refusal, proc_of, proc_refusal, first_name, name_of};
ghost use Rattle.isa_simprules.specs.Rules.{rules_in};
ghost use Rattle.isa_simprules.specs.RulesOf.{rules_of};
ghost use Rattle.isa_terms.specs.Sets.{missing};

use crate::fail::SimpFail;
use crate::procs::{Proc, conditions_of};
use isa_kernel::{Logic, Thm};
use isa_simprules::{Rule, are_distinct_unknowns, is_constant, rules_in, rules_of};
use isa_terms::{Name, Term, TermNode, Terms, args_of, copied, has, head, is_pattern, unknowns_of};
use std::alloc::{AllocError, Global};

/// The name of the first unknown of the terms, from left to right, that is none of the known terms'.
fn first_extra(alloc: Global, known: &[Term], terms: &[Term]) -> Result<Option<Name>, AllocError>
    ensures { IfOk result (λ o. o ≡ first_extra known.now terms.now) }
{
    let there = unknowns_of(alloc, known)?;
    let wanted = unknowns_of(alloc, terms)?;
    first_missing(alloc, there.as_slice(), wanted.as_slice())
}

/// The name of the first of the unknowns that is not among the known ones.
fn first_missing(
    alloc: Global,
    known: &[Term],
    unknowns: &[Term],
) -> Result<Option<Name>, AllocError>
    ensures { IfOk result (λ o. o ≡ first_name (missing known.now unknowns.now)) }
{
    match unknowns.split_first() {
        None => Ok(None),
        Some((first, rest)) => {
            if has(known, first) {
                first_missing(alloc, known, rest)
            } else {
                Ok(Some(name_of(alloc, first)?))
            }
        }
    }
}

/// The name of an unknown.
fn name_of(alloc: Global, t: &Term) -> Result<Name, AllocError>
    ensures { IfOk result (λ name. name ≡ name_of t.now) }
{
    match t.view() {
        TermNode::Unknown(name, _, _) => name.copy(),
        _ => Ok(Name::new(alloc)),
    }
}

/// The terms and one more behind them.
fn with_last(alloc: Global, terms: &[Term], last: &Term) -> Result<Terms, AllocError>
    ensures { IfOk result (λ r. r ≡ terms.now ++ last.now ∷ []) }
{
    let mut all = copied(alloc, terms)?;
    all.push(last.copy()?)?;
    Ok(all)
}

/// A term and others behind it.
fn with_first(alloc: Global, first: &Term, terms: &[Term]) -> Result<Terms, AllocError>
    ensures { IfOk result (λ r. r ≡ first.now ∷ terms.now) }
{
    let mut all = Terms::new(alloc);
    all.push(first.copy()?)?;
    for t in terms {
        all.push(t.copy()?)?;
    }
    Ok(all)
}

/// The first unknown of the right side that is neither on the left side nor in a condition.
fn extra_on_right(alloc: Global, rule: &Rule) -> Result<Option<Name>, AllocError>
    ensures { IfOk result (λ o. o ≡ extra_on_right rule.now) }
{
    let known = with_first(alloc, rule.left(), rule.conditions())?;
    let right = [rule.right().copy()?];
    first_extra(alloc, known.as_slice(), &right)
}

/// The first unknown of the conditions or the right side that is not on the left side.
fn extra(alloc: Global, rule: &Rule) -> Result<Option<Name>, AllocError>
    ensures { IfOk result (λ o. o ≡ extra rule.now) }
{
    let known = [rule.left().copy()?];
    let others = with_last(alloc, rule.conditions(), rule.right())?;
    first_extra(alloc, &known, others.as_slice())
}

/// The first such unknown of one of the rules.
fn first_extra_of(alloc: Global, rules: &[Rule]) -> Result<Option<Name>, AllocError>
    ensures { IfOk result (λ o. o ≡ first_extra_of rules.now) }
{
    match rules.split_first() {
        None => Ok(None),
        Some((first, rest)) => match extra_on_right(alloc, first)? {
            Some(name) => Ok(Some(name)),
            None => first_extra_of(alloc, rest),
        },
    }
}

/// Whether each left side is a pattern.
fn are_patterns(rules: &[Rule]) -> bool
    ensures { result ≡ are_patterns rules.now }
{
    for rule in rules {
        if !is_pattern(rule.left()) {
            return false;
        }
    }
    true
}

/// Why rewrite rules are refused.
pub(crate) fn rules_refusal(alloc: Global, rules: &[Rule]) -> Result<Option<SimpFail>, AllocError>
    ensures { IfOk result (λ o. o ≡ rules_refusal rules.now) }
{
    if rules.is_empty() {
        return Ok(Some(SimpFail::NotEquation));
    }
    if !are_patterns(rules) {
        return Ok(Some(SimpFail::NotPattern));
    }
    match first_extra_of(alloc, rules)? {
        Some(name) => Ok(Some(SimpFail::ExtraVar(name))),
        None => Ok(None),
    }
}

/// Whether the left side is `P (c x1 .. xn)`, P and the xi being distinct unknowns.
fn is_split_side(alloc: Global, left: &Term) -> Result<bool, AllocError>
    ensures { IfOk result (λ b. b ≡ is_split_side left.now) }
{
    match left.view() {
        TermNode::App(fun, arg) => {
            if !is_constant(head(arg)) {
                return Ok(false);
            }
            let args = args_of(alloc, arg)?;
            let unknowns = with_first(alloc, fun, args.as_slice())?;
            Ok(are_distinct_unknowns(unknowns.as_slice()))
        }
        _ => Ok(false),
    }
}

/// Whether it is a split rule: it has no conditions, and such a left side.
fn is_split(alloc: Global, rule: &Rule) -> Result<bool, AllocError>
    ensures { IfOk result (λ b. b ≡ is_split rule.now) }
{
    if rule.conditions().is_empty() {
        is_split_side(alloc, rule.left())
    } else {
        Ok(false)
    }
}

/// The rules of a fact.
pub(crate) fn rules_for(alloc: Global, logic: &Logic, fact: &Thm) -> Result<Vec<Rule>, AllocError>
    ensures { IfOk result (λ r. r.items ≡ rules_in (rules_of logic.now fact.now)) }
{
    let theorems = rules_of(alloc, logic, fact)?;
    rules_in(alloc, theorems.as_slice(), Vec::new(alloc))
}

/// The rule, where there is just one.
#[tactic(auto, using(crate::proofs::Answering::only_one, crate::proofs::Answering::only_more))]
fn only_rule(rules: &[Rule]) -> Option<&Rule>
    ensures { option_copied result ≡ only_rule rules.now }
{
    let (first, rest) = rules.split_first()?;
    if rest.is_empty() { Some(first) } else { None }
}

/// The split rule that the fact is.
pub(crate) fn split_of(alloc: Global, logic: &Logic, fact: &Thm) -> Result<Option<Rule>, AllocError>
    ensures { IfOk result (λ o. o ≡ split_of logic.now fact.now) }
{
    let rules = rules_for(alloc, logic, fact)?;
    let Some(rule) = only_rule(rules.as_slice()) else {
        return Ok(None);
    };
    if !is_split(alloc, rule)? {
        return Ok(None);
    }
    Ok(Some(rule.copy(alloc)?))
}

/// Why a split rule is refused.
pub(crate) fn split_refusal(
    alloc: Global,
    rule: &Option<Rule>,
) -> Result<Option<SimpFail>, AllocError>
    ensures { IfOk result (λ o. o ≡ split_refusal rule.now) }
{
    let Some(rule) = rule else {
        return Ok(Some(SimpFail::NotSplit));
    };
    match extra(alloc, rule)? {
        Some(name) => Ok(Some(SimpFail::ExtraVar(name))),
        None => Ok(None),
    }
}

/// The rule of a simplification procedure that the fact is.
pub(crate) fn proc_of(
    alloc: Global,
    proc: Proc,
    logic: &Logic,
    fact: &Thm,
) -> Result<Option<Rule>, AllocError>
    ensures { IfOk result (λ o. o ≡ proc_of proc logic.now fact.now) }
{
    let rules = rules_for(alloc, logic, fact)?;
    let Some(rule) = only_rule(rules.as_slice()) else {
        return Ok(None);
    };
    if rule.conditions().len() != conditions_of(proc) {
        return Ok(None);
    }
    Ok(Some(rule.copy(alloc)?))
}

/// Why the rule of a simplification procedure is refused.
pub(crate) fn proc_refusal(
    alloc: Global,
    rule: &Option<Rule>,
) -> Result<Option<SimpFail>, AllocError>
    ensures { IfOk result (λ o. o ≡ proc_refusal rule.now) }
{
    let Some(rule) = rule else {
        return Ok(Some(SimpFail::NotEquation));
    };
    if !is_pattern(rule.left()) {
        return Ok(Some(SimpFail::NotPattern));
    }
    match extra(alloc, rule)? {
        Some(name) => Ok(Some(SimpFail::ExtraVar(name))),
        None => Ok(None),
    }
}
