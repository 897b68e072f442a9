use crate::inferring::theorem_row;
use crate::making::term_row;
use crate::splitting::{premises_row, spliced_row, test_row};
use isa_kernel::{Theory, TheoryFail};
use isa_sketch::{Bench, Fault, split};
use isa_terms::{Name, Term};
use std::alloc::Global;

/// Whether the row's call answers what it should, of a row with a call.
pub fn row(alloc: Global, bench: &mut Bench, line: &str) -> Result<Option<bool>, Fault> {
    if let Some(symbol) = line.strip_prefix("let ") {
        bench.symbols.declare(alloc, symbol)?;
        return Ok(None);
    }
    if let Some(axiom) = line.strip_prefix("axiom ") {
        declare_axiom(alloc, bench, axiom)?;
        return Ok(None);
    }
    match line.split_once(" | ") {
        Some((wanted, call)) => Ok(Some(call_row(alloc, bench, wanted, call)?)),
        None => Ok(None),
    }
}

/// By the words `NAME PROP`.
fn declare_axiom(alloc: Global, bench: &mut Bench, text: &str) -> Result<(), Fault> {
    let (name, words) = split(text)?;
    let prop = bench.term(alloc, words)?;
    let name = Name::from_text(alloc, name)?;
    add_axiom(alloc, &mut bench.theory, &name, &prop)
}

fn add_axiom(alloc: Global, theory: &mut Theory, name: &Name, prop: &Term) -> Result<(), Fault> {
    match theory.add_axiom(alloc, name, prop) {
        Ok(()) => Ok(()),
        Err(TheoryFail::Memory) => Err(Fault::Memory),
        Err(_) => Err(Fault::Words),
    }
}

fn call_row(alloc: Global, bench: &Bench, wanted: &str, call: &str) -> Result<bool, Fault> {
    let (verb, rest) = split(call)?;
    match verb {
        "lifted" | "make_implies" | "conclusion" => term_row(alloc, bench, wanted, verb, rest),
        "split_rule" | "split_leading" | "split_all_premises" | "split_subgoal" => {
            premises_row(alloc, bench, wanted, verb, rest)
        }
        "spliced" => spliced_row(alloc, bench, wanted, rest),
        "is_all" => test_row(alloc, bench, wanted, rest),
        _ => theorem_row(alloc, bench, wanted, verb, rest),
    }
}
