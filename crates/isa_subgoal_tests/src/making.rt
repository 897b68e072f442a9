use crate::comparing::is_same;
use crate::lifting::lifted_over;
use crate::reading::{part, terms};
use isa_sketch::{Bench, Fault};
use isa_subgoal::{conclusion, make_implies};
use isa_terms::Term;
use std::alloc::Global;

/// Whether the call answers the term.
pub fn term_row(
    alloc: Global,
    bench: &Bench,
    wanted: &str,
    verb: &str,
    rest: &str,
) -> Result<bool, Fault> {
    let wanted = bench.term(alloc, wanted)?;
    Ok(is_same(&made(alloc, bench, verb, rest)?, &wanted))
}

fn made(alloc: Global, bench: &Bench, verb: &str, rest: &str) -> Result<Term, Fault> {
    match verb {
        "lifted" => lifted_by(alloc, bench, rest),
        "make_implies" => implied_by(alloc, bench, rest),
        "conclusion" => concluded_by(alloc, bench, rest),
        _ => Err(Fault::Words),
    }
}

/// By the texts `PARAMETERS ; ASSUMPTIONS ; RULE`.
fn lifted_by(alloc: Global, bench: &Bench, rest: &str) -> Result<Term, Fault> {
    let (parameters, rest) = part(rest)?;
    let (hyps, words) = part(rest)?;
    let hyps = terms(alloc, bench, hyps)?;
    let rule = bench.thm(alloc, words)?;
    lifted_over(alloc, parameters, &hyps, &rule)
}

/// By the texts `PREMISES ; CONCLUSION`.
fn implied_by(alloc: Global, bench: &Bench, rest: &str) -> Result<Term, Fault> {
    let (premises, words) = part(rest)?;
    let premises = terms(alloc, bench, premises)?;
    let behind = bench.term(alloc, words)?;
    Ok(make_implies(alloc, premises.as_slice(), &behind)?)
}

fn concluded_by(alloc: Global, bench: &Bench, words: &str) -> Result<Term, Fault> {
    let t = bench.term(alloc, words)?;
    Ok(conclusion(&t).copy()?)
}
