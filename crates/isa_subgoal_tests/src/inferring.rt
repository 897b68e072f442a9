use crate::comparing::is_same;
use crate::lifting::lifted_theorem;
use crate::reading::{part, small_number, terms};
use isa_kernel::{InferenceError, Thm};
use isa_sketch::{Bench, Fault, is_word, number, split};
use isa_subgoal::{cut, make_elimination, raise_rule, renumber_rule, reshape, rotate};
use isa_terms::Terms;
use std::alloc::Global;

/// Whether the call answers the theorem, or refuses, as it is wanted.
pub fn theorem_row(
    alloc: Global,
    bench: &Bench,
    wanted: &str,
    verb: &str,
    rest: &str,
) -> Result<bool, Fault> {
    match derived(alloc, bench, verb, rest) {
        Ok(th) => is_wanted(alloc, bench, wanted, &th),
        Err(Fault::Shape) => Ok(is_word(wanted, "shape")),
        Err(fault) => Err(fault),
    }
}

/// Whether it has so many hypotheses, rests on so many axioms, and states the proposition.
fn is_wanted(alloc: Global, bench: &Bench, wanted: &str, th: &Thm) -> Result<bool, Fault> {
    let (hyps, rest) = split(wanted)?;
    let (axioms, words) = split(rest)?;
    let counted = count_hyps(th) == number(hyps)? && count_axioms(th) == number(axioms)?;
    let prop = bench.term(alloc, words)?;
    Ok(counted && is_same(th.prop(), &prop))
}

fn count_hyps(th: &Thm) -> usize {
    th.hyps().len()
}

fn count_axioms(th: &Thm) -> usize {
    th.axioms().len()
}

fn derived(alloc: Global, bench: &Bench, verb: &str, rest: &str) -> Result<Thm, Fault> {
    match verb {
        "cut" => cut_by(alloc, bench, rest),
        "rotate" => rotated_by(alloc, bench, rest),
        "raise_rule" => raised_by(alloc, bench, rest),
        "reshape" => reshaped_by(alloc, bench, rest),
        "lift_rule" => lifted_by(alloc, bench, rest),
        "renumber_rule" => renumbered_by(alloc, bench, rest),
        "make_elimination" => eliminated_by(alloc, bench, rest),
        _ => Err(Fault::Words),
    }
}

/// By the texts `BEFORE ; PREMISES ; THEOREM ; RULE`.
fn cut_by(alloc: Global, bench: &Bench, rest: &str) -> Result<Thm, Fault> {
    let (before, rest) = part(rest)?;
    let (premises, rest) = part(rest)?;
    let (words, rule) = part(rest)?;
    let before = terms(alloc, bench, before)?;
    let premises = terms(alloc, bench, premises)?;
    let th = bench.thm(alloc, words)?;
    let rule = bench.thm(alloc, rule)?;
    put_in(alloc, &before, &premises, &th, &rule)
}

fn put_in(
    alloc: Global,
    before: &Terms,
    premises: &Terms,
    th: &Thm,
    rule: &Thm,
) -> Result<Thm, Fault> {
    answered(cut(alloc, before.as_slice(), premises.as_slice(), th, rule))
}

/// By the texts `FIRST ; SECOND ; THEOREM`.
fn rotated_by(alloc: Global, bench: &Bench, rest: &str) -> Result<Thm, Fault> {
    let (first, rest) = part(rest)?;
    let (second, words) = part(rest)?;
    let first = terms(alloc, bench, first)?;
    let second = terms(alloc, bench, second)?;
    let th = bench.thm(alloc, words)?;
    turned(alloc, &first, &second, &th)
}

fn turned(alloc: Global, first: &Terms, second: &Terms, th: &Thm) -> Result<Thm, Fault> {
    answered(rotate(alloc, first.as_slice(), second.as_slice(), th))
}

/// By the texts `ASSUMPTIONS ; PREMISES ; THEOREM`.
fn raised_by(alloc: Global, bench: &Bench, rest: &str) -> Result<Thm, Fault> {
    let (assumptions, rest) = part(rest)?;
    let (premises, words) = part(rest)?;
    let assumptions = terms(alloc, bench, assumptions)?;
    let premises = terms(alloc, bench, premises)?;
    let rule = bench.thm(alloc, words)?;
    put_under(alloc, &assumptions, &premises, rule)
}

fn put_under(
    alloc: Global,
    assumptions: &Terms,
    premises: &Terms,
    rule: Thm,
) -> Result<Thm, Fault> {
    answered(raise_rule(alloc, assumptions.as_slice(), premises.as_slice(), rule))
}

/// By the texts `SUBGOALS ; THEOREM`.
fn reshaped_by(alloc: Global, bench: &Bench, rest: &str) -> Result<Thm, Fault> {
    let (subgoals, words) = part(rest)?;
    let subgoals = terms(alloc, bench, subgoals)?;
    let th = bench.thm(alloc, words)?;
    formed(alloc, &subgoals, &th)
}

fn formed(alloc: Global, subgoals: &Terms, th: &Thm) -> Result<Thm, Fault> {
    answered(reshape(alloc, subgoals.as_slice(), th))
}

/// By the texts `PARAMETERS ; ASSUMPTIONS ; RULE`.
fn lifted_by(alloc: Global, bench: &Bench, rest: &str) -> Result<Thm, Fault> {
    let (parameters, rest) = part(rest)?;
    let (assumptions, words) = part(rest)?;
    let assumptions = terms(alloc, bench, assumptions)?;
    let rule = bench.thm(alloc, words)?;
    answered(lifted_theorem(alloc, parameters, &assumptions, &rule)?)
}

/// By the texts `NUMBER ; RULE`.
fn renumbered_by(alloc: Global, bench: &Bench, rest: &str) -> Result<Thm, Fault> {
    let (number, words) = part(rest)?;
    let rule = bench.thm(alloc, words)?;
    renumbered(alloc, small_number(number)?, &rule)
}

fn renumbered(alloc: Global, by: u32, rule: &Thm) -> Result<Thm, Fault> {
    answered(renumber_rule(alloc, by, rule))
}

/// By the texts `NUMBER ; RULE`; a rule with hypotheses is not asked for.
fn eliminated_by(alloc: Global, bench: &Bench, rest: &str) -> Result<Thm, Fault> {
    let (number, words) = part(rest)?;
    let rule = bench.thm(alloc, words)?;
    eliminated(alloc, small_number(number)?, &rule)
}

fn eliminated(alloc: Global, number: u32, rule: &Thm) -> Result<Thm, Fault> {
    if rule.hyps().len() > 0 {
        return Err(Fault::Words);
    }
    answered(make_elimination(alloc, rule, number))
}

fn answered(answer: Result<Thm, InferenceError>) -> Result<Thm, Fault> {
    match answer {
        Ok(th) => Ok(th),
        Err(InferenceError::Shape) => Err(Fault::Shape),
        Err(InferenceError::Memory) => Err(Fault::Memory),
    }
}
