use crate::constants::constants_row;
use crate::matches::{match_all_row, match_from_row, match_on_row, match_row};
use crate::unifications::{all_types_row, types_row, unify_all_row, unify_row};
use isa_sketch::{Bench, Fault, split};
use std::alloc::Global;

/// A call and what it should answer.
#[derive(Drop)]
pub struct Call<'t> {
    pub wanted: &'t str,
    pub left: &'t str,
    pub right: &'t str,
    /// Terms with their instances, or nothing.
    pub entries: &'t str,
}

/// Whether the row's call answers what it should, of a row with a call.
pub fn row(alloc: Global, bench: &mut Bench, line: &str) -> Result<Option<bool>, Fault> {
    if let Some(symbol) = line.strip_prefix("let ") {
        bench.symbols.declare(alloc, symbol)?;
        return Ok(None);
    }
    match line.split_once(" | ") {
        Some((wanted, rest)) => Ok(Some(call_row(alloc, bench, wanted, rest)?)),
        None => Ok(None),
    }
}

fn call_row(alloc: Global, bench: &Bench, wanted: &str, rest: &str) -> Result<bool, Fault> {
    let (call, entries) = rest.split_once(" | ").unwrap_or((rest, ""));
    let (verb, sides) = split(call)?;
    let (left, right) = sides.split_once(" = ").ok_or(Fault::Words)?;
    let row = Call {
        wanted,
        left,
        right,
        entries,
    };
    answers(alloc, bench, verb, &row)
}

fn answers(alloc: Global, bench: &Bench, verb: &str, row: &Call<'_>) -> Result<bool, Fault> {
    match verb {
        "unify" => unify_row(alloc, bench, row),
        "unify_all" => unify_all_row(alloc, bench, row),
        "match" => match_row(alloc, bench, row),
        "match_all" => match_all_row(alloc, bench, row),
        "match_from" => match_from_row(alloc, bench, row),
        "match_on" => match_on_row(alloc, bench, row),
        "constants" => constants_row(alloc, bench, row),
        "unify_types" => types_row(alloc, row),
        "unify_all_types" => all_types_row(alloc, row),
        _ => Err(Fault::Words),
    }
}
