use isa_kernel::{InferenceError, Thm};
use isa_sketch::{Fault, is_word, typ};
use isa_subgoal::{Parameter, lift_rule, lifted};
use isa_terms::{Name, Term, Terms};
use std::alloc::Global;

/// The lifted rule over the parameters that the text writes, as `x:T , y:U`, or `-` for none.
pub fn lifted_over(alloc: Global, text: &str, hyps: &Terms, rule: &Thm) -> Result<Term, Fault> {
    let parameters = parameters(alloc, text)?;
    Ok(lifted(alloc, parameters.as_slice(), hyps.as_slice(), rule)?)
}

/// The same as a theorem, or why there is none.
pub fn lifted_theorem(
    alloc: Global,
    text: &str,
    assumptions: &Terms,
    rule: &Thm,
) -> Result<Result<Thm, InferenceError>, Fault> {
    let parameters = parameters(alloc, text)?;
    Ok(lift_rule(alloc, parameters.as_slice(), assumptions.as_slice(), rule))
}

fn parameters(alloc: Global, text: &str) -> Result<Vec<Parameter>, Fault> {
    let mut all = Vec::new(alloc);
    if is_word(text, "-") {
        return Ok(all);
    }
    for words in text.split(" , ") {
        let first = parameter_of(alloc, words)?;
        push(&mut all, first)?;
    }
    Ok(all)
}

fn parameter_of(alloc: Global, words: &str) -> Result<Parameter, Fault> {
    let (name, letters) = words.split_once(':').ok_or(Fault::Words)?;
    let name = Name::from_text(alloc, name)?;
    let typ = typ(alloc, letters)?;
    Ok(Parameter { name, typ })
}

fn push(all: &mut Vec<Parameter>, parameter: Parameter) -> Result<(), Fault> {
    match all.push(parameter) {
        Ok(()) => Ok(()),
        Err(_) => Err(Fault::Memory),
    }
}
