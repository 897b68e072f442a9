//! One row of the table.
use crate::theorems::theorem_row;
use crate::theories::theory_row;
use isa_sketch::{Bench, Fault, is_word, split};
use isa_terms::Name;
use std::alloc::Global;

/// Whether the row's call answers what it should, of a row with a call.
pub fn row(alloc: Global, bench: &mut Bench, line: &str) -> Result<Option<bool>, Fault> {
    if let Some(symbol) = line.strip_prefix("let ") {
        bench.symbols.declare(alloc, symbol)?;
        return Ok(None);
    }
    match line.split_once(" | ") {
        Some((wanted, call)) => Ok(Some(call_row(alloc, bench, wanted, call)?)),
        None => Ok(None),
    }
}

fn call_row(alloc: Global, bench: &mut Bench, wanted: &str, call: &str) -> Result<bool, Fault> {
    let (word, rest) = split(call)?;
    match theory_row(alloc, bench, wanted, word, rest)? {
        Some(right) => Ok(right),
        None => theorem_row(alloc, bench, wanted, call),
    }
}

/// Whether the text is the word and the name.
pub fn is_about(text: &str, word: &str, name: &Name) -> bool {
    match text.split_once(' ') {
        Some((first, rest)) => is_word(first, word) && is_name(name, rest),
        None => false,
    }
}

fn is_name(name: &Name, text: &str) -> bool {
    name.is_text(text)
}
