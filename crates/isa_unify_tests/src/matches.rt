use crate::instances::{all_become, becomes};
use crate::rows::Call;
use isa_sketch::{Bench, Fault, is_word};
use isa_terms::{Inst, Term};
use isa_unify::{constants_of, match_pattern, match_patterns, match_patterns_from};
use std::alloc::Global;

/// Whether the pattern's match is what it should be; a match has to make the pattern equal to the term.
pub fn match_row(alloc: Global, bench: &Bench, row: &Call<'_>) -> Result<bool, Fault> {
    let pattern = bench.term(alloc, row.left)?;
    let term = bench.term(alloc, row.right)?;
    match found(alloc, &pattern, &term)? {
        None => Ok(is_word(row.wanted, "none")),
        Some(inst) => {
            let right = becomes(alloc, &inst, &pattern, &term)?;
            Ok(right && is_match(alloc, bench, row, &inst)?)
        }
    }
}

fn found(alloc: Global, pattern: &Term, term: &Term) -> Result<Option<Inst>, Fault> {
    Ok(match_pattern(alloc, pattern, term)?)
}

/// The same of lists of patterns and terms, as `P , Q`.
pub fn match_all_row(alloc: Global, bench: &Bench, row: &Call<'_>) -> Result<bool, Fault> {
    let patterns = terms(alloc, bench, row.left)?;
    let terms = terms(alloc, bench, row.right)?;
    match all_found(alloc, patterns.as_slice(), terms.as_slice())? {
        None => Ok(is_word(row.wanted, "none")),
        Some(inst) => is_match(alloc, bench, row, &inst),
    }
}

fn all_found(alloc: Global, patterns: &[Term], terms: &[Term]) -> Result<Option<Inst>, Fault> {
    Ok(match_patterns(alloc, patterns, terms)?)
}

/// The same where what stands in the terms before the semicolon counts as constants, as `C , D ; P , Q`.
pub fn match_from_row(alloc: Global, bench: &Bench, row: &Call<'_>) -> Result<bool, Fault> {
    let (constants, patterns) = row.left.split_once(" ; ").ok_or(Fault::Words)?;
    let constants = terms(alloc, bench, constants)?;
    let patterns = terms(alloc, bench, patterns)?;
    let terms = terms(alloc, bench, row.right)?;
    let start = constants_of(alloc, constants.as_slice())?;
    match found_from(alloc, patterns.as_slice(), terms.as_slice(), &start)? {
        None => Ok(is_word(row.wanted, "none")),
        Some(inst) => {
            let right = all_equal(alloc, &inst, patterns.as_slice(), terms.as_slice())?;
            Ok(right && is_match(alloc, bench, row, &inst)?)
        }
    }
}

/// The same where each pattern is matched alone, from what was found of those before it.
pub fn match_on_row(alloc: Global, bench: &Bench, row: &Call<'_>) -> Result<bool, Fault> {
    let patterns = terms(alloc, bench, row.left)?;
    let terms = terms(alloc, bench, row.right)?;
    match found_one_by_one(alloc, patterns.as_slice(), terms.as_slice())? {
        None => Ok(is_word(row.wanted, "none")),
        Some(inst) => {
            let right = all_equal(alloc, &inst, patterns.as_slice(), terms.as_slice())?;
            Ok(right && is_match(alloc, bench, row, &inst)?)
        }
    }
}

fn found_one_by_one(
    alloc: Global,
    patterns: &[Term],
    terms: &[Term],
) -> Result<Option<Inst>, Fault> {
    let mut inst = Inst::new(alloc);
    for (pattern, term) in patterns.iter().zip(terms.iter()) {
        let pattern = [pattern.copy()?];
        let term = [term.copy()?];
        match found_from(alloc, &pattern, &term, &inst)? {
            None => return Ok(None),
            Some(found) => inst = found,
        }
    }
    Ok(Some(inst))
}

fn found_from(
    alloc: Global,
    patterns: &[Term],
    terms: &[Term],
    start: &Inst,
) -> Result<Option<Inst>, Fault> {
    Ok(match_patterns_from(alloc, patterns, terms, start)?)
}

/// Whether the instance makes each pattern equal to the term at its place.
fn all_equal(alloc: Global, inst: &Inst, patterns: &[Term], terms: &[Term]) -> Result<bool, Fault> {
    for (pattern, term) in patterns.iter().zip(terms.iter()) {
        if !becomes(alloc, inst, pattern, term)? {
            return Ok(false);
        }
    }
    Ok(true)
}

/// Whether a match is wanted, and it has the row's entries.
fn is_match(alloc: Global, bench: &Bench, row: &Call<'_>, inst: &Inst) -> Result<bool, Fault> {
    Ok(is_word(row.wanted, "match") && all_become(alloc, bench, inst, row.entries)?)
}

/// The terms of the text, as `P , Q`.
pub fn terms(alloc: Global, bench: &Bench, text: &str) -> Result<Vec<Term>, Fault> {
    let mut all = Vec::new(alloc);
    for words in text.split(" , ") {
        let term = bench.term(alloc, words)?;
        push(&mut all, term)?;
    }
    Ok(all)
}

fn push(all: &mut Vec<Term>, term: Term) -> Result<(), Fault> {
    match all.push(term) {
        Ok(()) => Ok(()),
        Err(_) => Err(Fault::Memory),
    }
}
