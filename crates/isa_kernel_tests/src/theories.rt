//! Rows that a theory answers.
use crate::rows::is_about;
use isa_kernel::{Theory, TheoryFail};
use isa_sketch::{Bench, Fault, is_word, number, split, typ};
use isa_terms::Name;
use std::alloc::Global;

/// Whether the call of the theory answers what it should, if it is one.
pub fn theory_row(
    alloc: Global,
    bench: &mut Bench,
    wanted: &str,
    word: &str,
    rest: &str,
) -> Result<Option<bool>, Fault> {
    let right = match word {
        "declare_type" => declare_type(alloc, &mut bench.theory, wanted, rest)?,
        "declare_const" => declare_const(alloc, &mut bench.theory, wanted, rest)?,
        "add_axiom" => add_axiom(alloc, bench, wanted, rest)?,
        "undo_to" => undo_to(&mut bench.theory, wanted, rest)?,
        "arity" => arity(alloc, &bench.theory, wanted, rest)?,
        "constant" => constant(alloc, &bench.theory, wanted, rest)?,
        _ => return Ok(None),
    };
    Ok(Some(right))
}

fn declare_type(
    alloc: Global,
    theory: &mut Theory,
    wanted: &str,
    rest: &str,
) -> Result<bool, Fault> {
    let (name, arity) = split(rest)?;
    let Ok(arity) = arity.parse::<u32>() else {
        return Err(Fault::Words);
    };
    let name = Name::from_text(alloc, name)?;
    answers(wanted, theory.declare_type(alloc, &name, arity))
}

fn declare_const(
    alloc: Global,
    theory: &mut Theory,
    wanted: &str,
    rest: &str,
) -> Result<bool, Fault> {
    let (name, letters) = split(rest)?;
    let typ = typ(alloc, letters)?;
    let name = Name::from_text(alloc, name)?;
    answers(wanted, theory.declare_const(alloc, &name, &typ))
}

fn add_axiom(alloc: Global, bench: &mut Bench, wanted: &str, rest: &str) -> Result<bool, Fault> {
    let (name, words) = split(rest)?;
    let prop = bench.term(alloc, words)?;
    let name = Name::from_text(alloc, name)?;
    answers(wanted, bench.theory.add_axiom(alloc, &name, &prop))
}

/// Whether so many declarations are left.
fn undo_to(theory: &mut Theory, wanted: &str, rest: &str) -> Result<bool, Fault> {
    let mark = number(rest)?;
    if theory.mark() < mark {
        return Err(Fault::Words);
    }
    theory.undo_to(mark);
    Ok(theory.mark() == number(wanted)?)
}

fn arity(alloc: Global, theory: &Theory, wanted: &str, rest: &str) -> Result<bool, Fault> {
    match theory.arity(&Name::from_text(alloc, rest)?) {
        Some(arity) => Ok(arity as usize == number(wanted)?),
        None => Ok(is_word(wanted, "none")),
    }
}

fn constant(alloc: Global, theory: &Theory, wanted: &str, rest: &str) -> Result<bool, Fault> {
    match theory.constant(&Name::from_text(alloc, rest)?) {
        Some(_) => Ok(is_word(wanted, "some")),
        None => Ok(is_word(wanted, "none")),
    }
}

/// Whether the declaration is accepted or refused as it should be.
fn answers(wanted: &str, answer: Result<(), TheoryFail>) -> Result<bool, Fault> {
    let right = match answer {
        Ok(()) => is_word(wanted, "accepted"),
        Err(TheoryFail::Duplicate(name)) => is_about(wanted, "duplicate", &name),
        Err(TheoryFail::Unknown(name)) => is_about(wanted, "unknown", &name),
        Err(TheoryFail::Misfit(name)) => is_about(wanted, "misfit", &name),
        Err(TheoryFail::IllTyped(_fault)) => is_word(wanted, "ill_typed"),
        Err(TheoryFail::NotProp(_typ)) => is_word(wanted, "not_prop"),
        Err(TheoryFail::Memory) => return Err(Fault::Memory),
    };
    Ok(right)
}
