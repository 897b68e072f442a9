//! Rows that an inference answers.
use crate::rows::is_about;
use isa_kernel::Thm;
use isa_sketch::{Bench, Fault, is_word, number, split};
use isa_terms::{Term, TermNode, same_term};
use std::alloc::Global;

/// Whether the inference answers what it should.
pub fn theorem_row(alloc: Global, bench: &Bench, wanted: &str, call: &str) -> Result<bool, Fault> {
    match bench.last_inference(alloc, call) {
        Ok(th) => is_wanted(alloc, bench, wanted, &th),
        Err(Fault::Shape) => Ok(is_word(wanted, "shape")),
        Err(Fault::UnknownAxiom(name)) => Ok(is_about(wanted, "unknown_axiom", &name)),
        Err(fault) => Err(fault),
    }
}

/// Whether it has so many hypotheses, rests on so many axioms, and states the proposition; or whether its base has so many
/// entries; or whether it states the proposition, the names of binders included.
fn is_wanted(alloc: Global, bench: &Bench, wanted: &str, th: &Thm) -> Result<bool, Fault> {
    if let Some(count) = wanted.strip_prefix("entries ") {
        return Ok(th.base().len() == number(count)?);
    }
    if let Some(prop) = wanted.strip_prefix("named ") {
        let prop = bench.term(alloc, prop)?;
        return Ok(states(th, &prop) && has_names(th.prop(), &prop));
    }
    let (hyps, rest) = split(wanted)?;
    let (axioms, prop) = split(rest)?;
    let counted = count_hyps(th) == number(hyps)? && count_axioms(th) == number(axioms)?;
    Ok(counted && states(th, &bench.term(alloc, prop)?))
}

fn count_hyps(th: &Thm) -> usize {
    th.hyps().len()
}

fn count_axioms(th: &Thm) -> usize {
    th.axioms().len()
}

fn states(th: &Thm, prop: &Term) -> bool {
    same_term(th.prop(), prop)
}

/// Whether the names of the binders are equal, of terms that are equal up to them.
fn has_names(t: &Term, other: &Term) -> bool {
    match (t.view(), other.view()) {
        (TermNode::Abs(name, _, body), TermNode::Abs(second, _, inner)) => {
            name.same(second) && has_names(body, inner)
        }
        (TermNode::App(fun, arg), TermNode::App(head, argument)) => {
            has_names(fun, head) && has_names(arg, argument)
        }
        _ => true,
    }
}
