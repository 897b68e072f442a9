use crate::instances::instance;
use crate::rows::two_terms;
use isa_sketch::{Bench, Fault};
use isa_terms::{
    Name, Names, Term, TermNode, abstracted, closed, gen_term, instantiate, norm, replaced,
};
use std::alloc::Global;

/// The term that the call makes.
pub fn made(alloc: Global, bench: &Bench, verb: &str, rest: &str) -> Result<Term, Fault> {
    match verb {
        "norm" => normal(alloc, bench, rest),
        "replaced" => body_with(alloc, bench, rest),
        "closed" => body_over(alloc, bench, rest),
        "abstracted" => body_over_part(alloc, bench, rest),
        "gen_term" => general(alloc, bench, rest),
        "instantiate" => instance_of(alloc, bench, rest),
        _ => Err(Fault::Words),
    }
}

fn normal(alloc: Global, bench: &Bench, words: &str) -> Result<Term, Fault> {
    let t = bench.term(alloc, words)?;
    Ok(norm(alloc, &t)?)
}

/// Of a body and an argument, as `T , U`.
fn body_with(alloc: Global, bench: &Bench, rest: &str) -> Result<Term, Fault> {
    let (body, argument) = two_terms(alloc, bench, rest)?;
    Ok(replaced(alloc, &body, &argument)?)
}

/// Of a free variable and a term, as `T , U`.
fn body_over(alloc: Global, bench: &Bench, rest: &str) -> Result<Term, Fault> {
    let (variable, t) = two_terms(alloc, bench, rest)?;
    match variable.view() {
        TermNode::Free(name, typ) => Ok(closed(alloc, name, typ, &t)?),
        _ => Err(Fault::Words),
    }
}

/// Of a part and a term, as `T , U`.
fn body_over_part(alloc: Global, bench: &Bench, rest: &str) -> Result<Term, Fault> {
    let (part, t) = two_terms(alloc, bench, rest)?;
    Ok(abstracted(alloc, &part, &t)?)
}

/// Of names and a term, as `NAME NAME , T`.
fn general(alloc: Global, bench: &Bench, rest: &str) -> Result<Term, Fault> {
    let (words, term) = rest.split_once(" , ").ok_or(Fault::Words)?;
    let names = names(alloc, words)?;
    let t = bench.term(alloc, term)?;
    Ok(gen_term(alloc, names.as_slice(), &t)?)
}

fn names(alloc: Global, text: &str) -> Result<Names, Fault> {
    let mut all = Names::new(alloc);
    for word in text.split(' ') {
        all.push(Name::from_text(alloc, word)?)?;
    }
    Ok(all)
}

/// Of a term and the entries of an instance, behind a second bar.
fn instance_of(alloc: Global, bench: &Bench, rest: &str) -> Result<Term, Fault> {
    let (term, entries) = rest.split_once(" | ").ok_or(Fault::Words)?;
    let t = bench.term(alloc, term)?;
    let inst = instance(alloc, bench, entries)?;
    Ok(instantiate(alloc, &inst, &t)?)
}
