use crate::instances::entries_row;
use crate::lists::lists_row;
use crate::making::made;
use crate::telling::{compare_row, greatest_row, pattern_row, same_row, size_row};
use crate::typing::type_row;
use isa_sketch::{Bench, Fault, is_word, split};
use isa_terms::{Term, same_term};
use std::alloc::Global;

/// Whether the row's call answers what it should, of a row with a call.
pub fn row(alloc: Global, bench: &mut Bench, line: &str) -> Result<Option<bool>, Fault> {
    if let Some(symbol) = line.strip_prefix("let ") {
        bench.symbols.declare(alloc, symbol)?;
        return Ok(None);
    }
    match line.split_once(" | ") {
        Some((wanted, call)) => Ok(Some(call_row(alloc, bench, wanted, call)?)),
        None => Ok(None),
    }
}

fn call_row(alloc: Global, bench: &Bench, wanted: &str, call: &str) -> Result<bool, Fault> {
    let (verb, rest) = split(call)?;
    match verb {
        "type_of" => type_row(alloc, bench, wanted, rest),
        "compare" => compare_row(alloc, bench, wanted, rest),
        "same" => same_row(alloc, bench, wanted, rest),
        "is_pattern" => pattern_row(alloc, bench, wanted, rest),
        "size" => size_row(alloc, bench, wanted, rest),
        "greatest" => greatest_row(alloc, bench, wanted, rest),
        "entries" => entries_row(alloc, bench, wanted, rest),
        "lists" => lists_row(alloc, bench, wanted, rest),
        _ => makes(alloc, bench, wanted, verb, rest),
    }
}

/// Whether the call makes the term that is wanted.
fn makes(
    alloc: Global,
    bench: &Bench,
    wanted: &str,
    verb: &str,
    rest: &str,
) -> Result<bool, Fault> {
    let t = made(alloc, bench, verb, rest)?;
    let wanted = bench.term(alloc, wanted)?;
    Ok(same_term(&t, &wanted))
}

/// The terms that the text writes as `T , U`.
pub fn two_terms(alloc: Global, bench: &Bench, text: &str) -> Result<(Term, Term), Fault> {
    let (left, right) = text.split_once(" , ").ok_or(Fault::Words)?;
    let left = bench.term(alloc, left)?;
    let right = bench.term(alloc, right)?;
    Ok((left, right))
}

/// Whether the text says that it holds, or that it doesn't.
pub fn is_answer(text: &str, holds: bool) -> bool {
    is_word(text, if holds { "yes" } else { "no" })
}
