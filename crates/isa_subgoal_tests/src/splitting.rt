use crate::comparing::{are, is_same};
use crate::reading::{part, terms};
use isa_kernel::Thm;
use isa_sketch::{Bench, Fault, is_word, number};
use isa_subgoal::{
    Premises, is_all, spliced, split_all_premises, split_leading, split_rule, split_subgoal,
};
use isa_terms::{Term, Terms};
use std::alloc::Global;

/// Whether the call answers the parts that the text writes, as `PREMISES ; CONCLUSION`, or gives none.
pub fn premises_row(
    alloc: Global,
    bench: &Bench,
    wanted: &str,
    verb: &str,
    rest: &str,
) -> Result<bool, Fault> {
    match found(alloc, bench, verb, rest)? {
        None => Ok(is_word(wanted, "none")),
        Some(parts) => has_parts(alloc, bench, wanted, &parts),
    }
}

fn has_parts(alloc: Global, bench: &Bench, wanted: &str, parts: &Premises) -> Result<bool, Fault> {
    let (premises, behind) = part(wanted)?;
    let premises = terms(alloc, bench, premises)?;
    let behind = bench.term(alloc, behind)?;
    let right = are(parts.premises.as_slice(), premises.as_slice());
    Ok(right && is_same(&parts.conclusion, &behind))
}

fn found(alloc: Global, bench: &Bench, verb: &str, rest: &str) -> Result<Option<Premises>, Fault> {
    let (first, rest) = part(rest)?;
    match verb {
        "split_rule" => of_rule(alloc, bench, first, rest),
        "split_leading" => Ok(Some(leading(alloc, bench, first, rest)?)),
        "split_all_premises" => Ok(Some(all(alloc, bench, first, rest)?)),
        "split_subgoal" => of_subgoal(alloc, bench, first, rest),
        _ => Err(Fault::Words),
    }
}

/// By the texts `COUNT ; THEOREM`.
fn of_rule(
    alloc: Global,
    bench: &Bench,
    count: &str,
    words: &str,
) -> Result<Option<Premises>, Fault> {
    let th = bench.thm(alloc, words)?;
    of_theorem(alloc, number(count)?, &th)
}

fn of_theorem(alloc: Global, count: usize, th: &Thm) -> Result<Option<Premises>, Fault> {
    Ok(split_rule(alloc, count, th)?)
}

/// By the texts `COUNT ; DONE ; PROPOSITION`.
fn leading(alloc: Global, bench: &Bench, count: &str, rest: &str) -> Result<Premises, Fault> {
    let (done, words) = part(rest)?;
    let done = terms(alloc, bench, done)?;
    let t = bench.term(alloc, words)?;
    Ok(split_leading(number(count)?, &t, done)?)
}

/// By the texts `DONE ; PROPOSITION`.
fn all(alloc: Global, bench: &Bench, done: &str, words: &str) -> Result<Premises, Fault> {
    let done = terms(alloc, bench, done)?;
    let t = bench.term(alloc, words)?;
    Ok(split_all_premises(&t, done)?)
}

/// By the texts `COUNT ; SUBGOAL`; none where it has not so many parameters.
fn of_subgoal(
    alloc: Global,
    bench: &Bench,
    count: &str,
    words: &str,
) -> Result<Option<Premises>, Fault> {
    let t = bench.term(alloc, words)?;
    under_parameters(alloc, number(count)?, &t)
}

fn under_parameters(alloc: Global, count: usize, t: &Term) -> Result<Option<Premises>, Fault> {
    let parts = split_subgoal(alloc, t)?;
    if parts.parameters.len() != count {
        return Ok(None);
    }
    Ok(Some(Premises {
        premises: parts.assumptions,
        conclusion: parts.conclusion,
    }))
}

/// Whether the three lists, written as `A ; B ; C`, give the one that is wanted.
pub fn spliced_row(alloc: Global, bench: &Bench, wanted: &str, rest: &str) -> Result<bool, Fault> {
    let (before, rest) = part(rest)?;
    let (between, behind) = part(rest)?;
    let before = terms(alloc, bench, before)?;
    let between = terms(alloc, bench, between)?;
    let behind = terms(alloc, bench, behind)?;
    let together = joined(alloc, &before, &between, &behind)?;
    Ok(are(together.as_slice(), terms(alloc, bench, wanted)?.as_slice()))
}

fn joined(alloc: Global, before: &Terms, between: &Terms, behind: &Terms) -> Result<Terms, Fault> {
    Ok(spliced(
        alloc,
        before.as_slice(),
        between.as_slice(),
        behind.as_slice(),
    )?)
}

/// Whether the proposition is or isn't `!!` of something, as it is wanted.
pub fn test_row(alloc: Global, bench: &Bench, wanted: &str, words: &str) -> Result<bool, Fault> {
    let t = bench.term(alloc, words)?;
    Ok(is_all(&t) == is_word(wanted, "yes"))
}
