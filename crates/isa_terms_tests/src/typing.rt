use isa_sketch::{Bench, Fault, is_word, number, split, typ};
use isa_terms::{IllTyped, Place, Text, Turn, Typ, same_typ, type_of};
use std::alloc::{AllocError, Global};

/// A fault as a row writes it: its cause, the turns that lead to its place, and what else it tells.
#[derive(Drop)]
struct Told<'t> {
    cause: &'t str,
    turns: &'t str,
    rest: &'t str,
}

/// Whether the term has the type that is wanted, or else the fault.
pub fn type_row(alloc: Global, bench: &Bench, wanted: &str, words: &str) -> Result<bool, Fault> {
    let t = bench.term(alloc, words)?;
    match type_of(alloc, &t) {
        Ok(has) => is_type(alloc, wanted, &has),
        Err(IllTyped::Memory) => Err(Fault::Memory),
        Err(fault) => is_fault(alloc, &told_by(wanted)?, &fault),
    }
}

fn told_by(text: &str) -> Result<Told<'_>, Fault> {
    let (cause, text) = split(text)?;
    let (turns, rest) = split(text)?;
    Ok(Told { cause, turns, rest })
}

fn is_fault(alloc: Global, told: &Told<'_>, fault: &IllTyped) -> Result<bool, Fault> {
    match fault {
        IllTyped::NotFunction { place, has } => {
            let there = is_at(alloc, told, "not_function", place)?;
            Ok(there && is_type(alloc, told.rest, has)?)
        }
        IllTyped::Differs { place, wants, has } => {
            let there = is_at(alloc, told, "differs", place)?;
            Ok(there && are_types(alloc, told.rest, wants, has)?)
        }
        IllTyped::Loose { place, number } => {
            let there = is_at(alloc, told, "loose", place)?;
            Ok(there && is_number(told.rest, *number)?)
        }
        IllTyped::Memory => Err(Fault::Memory),
    }
}

/// Whether a fault of that cause is told, at that place.
fn is_at(alloc: Global, told: &Told<'_>, cause: &str, place: &Place) -> Result<bool, Fault> {
    let leads = leads_to(alloc, told.turns, place.turns())?;
    Ok(leads && is_word(told.cause, cause))
}

/// Whether the letters are those of the turns, or a dot where there are none.
fn leads_to(alloc: Global, letters: &str, turns: &[Turn]) -> Result<bool, AllocError> {
    if turns.is_empty() {
        return Ok(is_word(letters, "."));
    }
    let mut text = Text::new(alloc);
    for turn in turns {
        text.push(letter(*turn))?;
    }
    Ok(text.as_slice() == letters.as_bytes())
}

fn letter(turn: Turn) -> u8 {
    match turn {
        Turn::Fun => b'f',
        Turn::Arg => b'a',
        Turn::Body => b'b',
    }
}

fn is_type(alloc: Global, letters: &str, has: &Typ) -> Result<bool, Fault> {
    let wanted = typ(alloc, letters)?;
    Ok(same_typ(has, &wanted))
}

fn are_types(alloc: Global, text: &str, wants: &Typ, has: &Typ) -> Result<bool, Fault> {
    let (first, second) = split(text)?;
    Ok(is_type(alloc, first, wants)? && is_type(alloc, second, has)?)
}

fn is_number(text: &str, counted: u32) -> Result<bool, Fault> {
    Ok(counted as usize == number(text)?)
}
