use crate::rows::{is_answer, two_terms};
use isa_sketch::{Bench, Fault, is_word, number};
use isa_terms::{compare_terms, greatest_number, is_pattern, same_term, size};
use std::alloc::Global;
use std::cmp::Ordering;

/// Whether the terms, written as `T , U`, compare as it is wanted.
pub fn compare_row(alloc: Global, bench: &Bench, wanted: &str, rest: &str) -> Result<bool, Fault> {
    let (left, right) = two_terms(alloc, bench, rest)?;
    Ok(is_order(wanted, compare_terms(&left, &right)))
}

fn is_order(text: &str, order: Ordering) -> bool {
    match order {
        Ordering::Less => is_word(text, "less"),
        Ordering::Equal => is_word(text, "equal"),
        Ordering::Greater => is_word(text, "greater"),
    }
}

/// Whether the terms, written as `T , U`, are or aren't equal, as it is wanted.
pub fn same_row(alloc: Global, bench: &Bench, wanted: &str, rest: &str) -> Result<bool, Fault> {
    let (left, right) = two_terms(alloc, bench, rest)?;
    Ok(is_answer(wanted, same_term(&left, &right)))
}

/// Whether the term is or isn't a pattern, as it is wanted.
pub fn pattern_row(alloc: Global, bench: &Bench, wanted: &str, rest: &str) -> Result<bool, Fault> {
    let t = bench.term(alloc, rest)?;
    Ok(is_answer(wanted, is_pattern(&t)))
}

/// Whether the term has the size that is wanted.
pub fn size_row(alloc: Global, bench: &Bench, wanted: &str, rest: &str) -> Result<bool, Fault> {
    let t = bench.term(alloc, rest)?;
    Ok(size(&t) == number(wanted)? as u64)
}

/// Whether the greatest number of an unknown or a type unknown of the term is the wanted one, or there is none, as it is
/// wanted.
pub fn greatest_row(alloc: Global, bench: &Bench, wanted: &str, rest: &str) -> Result<bool, Fault> {
    let t = bench.term(alloc, rest)?;
    match greatest_number(&t) {
        None => Ok(is_word(wanted, "none")),
        Some(greatest) => Ok(greatest as usize == number(wanted)?),
    }
}
