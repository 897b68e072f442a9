use crate::asking::asked;
use crate::desk::Desk;
use crate::making::made;
use isa_goal::State;
use isa_sketch::{Fault, is_word, split};
use std::alloc::Global;

/// Whether the row's call answers what it should, of a row with a call.
pub fn row(alloc: Global, desk: &mut Desk, line: &str) -> Result<Option<bool>, Fault> {
    if let Some(symbol) = line.strip_prefix("let ") {
        desk.bench.symbols.declare(alloc, symbol)?;
        return Ok(None);
    }
    match line.split_once(" | ") {
        Some((wanted, call)) => Ok(Some(call_row(alloc, desk, wanted, call)?)),
        None => Ok(None),
    }
}

fn call_row(alloc: Global, desk: &mut Desk, wanted: &str, call: &str) -> Result<bool, Fault> {
    let (verb, rest) = split(call)?;
    if let Some(name) = wanted.strip_prefix("state ") {
        let state = made(alloc, desk, verb, rest)?;
        desk.put(alloc, name, state)?;
        return Ok(true);
    }
    if is_word(wanted, "shape") {
        return Ok(is_shape(made(alloc, desk, verb, rest)));
    }
    asked(alloc, desk, wanted, verb, rest)
}

fn is_shape(answer: Result<State, Fault>) -> bool {
    match answer {
        Err(Fault::Shape) => true,
        _ => false,
    }
}
