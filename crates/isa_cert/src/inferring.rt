//! The theorem of a step.
ghost use Rattle.std.specs.Prelude.{◌≡◌, ◌<◌, ◌≤◌, [], ◌∷◌, ℕ, Option, IfSome, IfNone, length, slice_get, Some};
ghost use Rattle.isa_kernel.specs.Theorem.{Theorem};
ghost use Rattle.isa_kernel.specs.Inferences.{Answers, assumed, implies_introduced, implies_eliminated, forall_introduced, forall_eliminated, reflexive_at, turned, chained, combined, abstracted, contracted, shortened, equal_introduced, equal_eliminated, generalized};
ghost use Rattle.isa_cert.specs.Checking.{all_typed, or_step, on_term, on_step, on_both, on_steps, inferred, instance_on, or_form};
ghost use Rattle.isa_cert.specs.declared.line.Rule.TheVariants.{Cite};
ghost use Rattle.isa_cert.specs.Lines.{any_number};
ghost use Rattle.isa_cert.specs.Answers.{Makes, Checks};

use crate::fail::LineFail;
use crate::instances::{check_all_typed, put_terms, put_types};
use crate::line::Rule;
use crate::numbers::Pairs;
use crate::reader::value_within;
use crate::table::{End, Table};
use isa_kernel::{
    InferenceError, Thm, abstract_rule, assume, beta, combination, equal_elim, equal_intr, eta,
    forall_elim, forall_intr, generalize, implies_elim, implies_intr, instantiate_thm, reflexive,
    symmetric, transitive,
};
use isa_terms::{IllTyped, Inst, Name, Names, Term, type_of};
use std::alloc::Global;

/// Asks that the term has a type.
pub(crate) fn check_typed(alloc: Global, t: &Term) -> Result<(), LineFail>
    ensures { Checks result (all_typed (t.now ∷ [])) }
{
    match type_of(alloc, t) {
        Ok(_) => Ok(()),
        Err(IllTyped::Memory) => Err(LineFail::Memory),
        Err(_) => Err(LineFail::Typed),
    }
}

/// The theorem, or that the inference's condition fails.
fn made(theorem: Result<Thm, InferenceError>) -> Result<Thm, LineFail>
    ensures { (wanted : Option Theorem) → Answers theorem wanted → Makes result (or_step wanted) }
{
    match theorem {
        Ok(th) => Ok(th),
        Err(InferenceError::Shape) => Err(LineFail::Step),
        Err(InferenceError::Memory) => Err(LineFail::Memory),
    }
}

/// `a` under the hypothesis `a`.
fn assumption(alloc: Global, table: &Table, term: u32) -> Result<Thm, LineFail>
    ensures { Makes result (on_term table.now assumed term) }
{
    let t = table.term(term)?;
    check_typed(alloc, t)?;
    made(assume(alloc, t))
}

/// `t == t`.
fn reflexivity(alloc: Global, table: &Table, term: u32) -> Result<Thm, LineFail>
    ensures { Makes result (on_term table.now reflexive_at term) }
{
    let t = table.term(term)?;
    check_typed(alloc, t)?;
    made(reflexive(alloc, t))
}

/// `(%x. b) a == b[a]`.
fn contraction(alloc: Global, table: &Table, term: u32) -> Result<Thm, LineFail>
    ensures { Makes result (on_term table.now contracted term) }
{
    let t = table.term(term)?;
    check_typed(alloc, t)?;
    made(beta(alloc, t))
}

/// `(%x. f x) == f`.
fn shortening(alloc: Global, table: &Table, term: u32) -> Result<Thm, LineFail>
    ensures { Makes result (on_term table.now shortened term) }
{
    let t = table.term(term)?;
    check_typed(alloc, t)?;
    made(eta(alloc, t))
}

/// `a ==> B`.
fn implication(alloc: Global, table: &Table, term: u32, step: u32) -> Result<Thm, LineFail>
    ensures { Makes result (on_both table.now implies_introduced term step) }
{
    let t = table.term(term)?;
    let th = table.step(step)?;
    check_typed(alloc, t)?;
    made(implies_intr(alloc, t, th))
}

/// `!!x. B`.
fn generality(alloc: Global, table: &Table, term: u32, step: u32) -> Result<Thm, LineFail>
    ensures { Makes result (on_both table.now forall_introduced term step) }
{
    let t = table.term(term)?;
    let th = table.step(step)?;
    check_typed(alloc, t)?;
    made(forall_intr(alloc, t, th))
}

/// `B` at a term.
fn instance_at(alloc: Global, table: &Table, term: u32, step: u32) -> Result<Thm, LineFail>
    ensures { Makes result (on_both table.now forall_eliminated term step) }
{
    let t = table.term(term)?;
    let th = table.step(step)?;
    check_typed(alloc, t)?;
    made(forall_elim(alloc, t, th))
}

/// `(%x. t) == (%x. u)`.
fn abstraction(alloc: Global, table: &Table, term: u32, step: u32) -> Result<Thm, LineFail>
    ensures { Makes result (on_both table.now abstracted term step) }
{
    let t = table.term(term)?;
    let th = table.step(step)?;
    check_typed(alloc, t)?;
    made(abstract_rule(alloc, t, th))
}

/// `u == t`.
fn symmetry(alloc: Global, table: &Table, step: u32) -> Result<Thm, LineFail>
    ensures { Makes result (on_step table.now turned step) }
{
    let th = table.step(step)?;
    made(symmetric(alloc, th))
}

/// `B`, from `A ==> B` and `A`.
fn detachment(alloc: Global, table: &Table, first: u32, second: u32) -> Result<Thm, LineFail>
    ensures { Makes result (on_steps table.now implies_eliminated first second) }
{
    let a = table.step(first)?;
    let b = table.step(second)?;
    made(implies_elim(alloc, a, b))
}

/// `t == v`.
fn transitivity(alloc: Global, table: &Table, first: u32, second: u32) -> Result<Thm, LineFail>
    ensures { Makes result (on_steps table.now chained first second) }
{
    let a = table.step(first)?;
    let b = table.step(second)?;
    made(transitive(alloc, a, b))
}

/// `f a == g b`.
fn application(alloc: Global, table: &Table, first: u32, second: u32) -> Result<Thm, LineFail>
    ensures { Makes result (on_steps table.now combined first second) }
{
    let a = table.step(first)?;
    let b = table.step(second)?;
    made(combination(alloc, a, b))
}

/// `A == B`, from two implications.
fn equivalence(alloc: Global, table: &Table, first: u32, second: u32) -> Result<Thm, LineFail>
    ensures { Makes result (on_steps table.now equal_introduced first second) }
{
    let a = table.step(first)?;
    let b = table.step(second)?;
    made(equal_intr(alloc, a, b))
}

/// `B`, from `A == B` and `A`.
fn replacement(alloc: Global, table: &Table, first: u32, second: u32) -> Result<Thm, LineFail>
    ensures { Makes result (on_steps table.now equal_eliminated first second) }
{
    let a = table.step(first)?;
    let b = table.step(second)?;
    made(equal_elim(alloc, a, b))
}

/// Unknowns in the place of the named variables.
fn generalization(alloc: Global, table: &Table, names: &Names, step: u32) -> Result<Thm, LineFail>
    ensures { Makes result (on_step table.now (generalized names.now) step) }
{
    let th = table.step(step)?;
    made(generalize(alloc, names, th))
}

/// The instance of a step.
fn instance(
    alloc: Global,
    table: &Table,
    step: u32,
    types: &Pairs,
    terms: &Pairs,
) -> Result<Thm, LineFail>
    ensures { Makes result (instance_on table.now step types.now terms.now) }
{
    let th = table.step(step)?;
    let mut inst = Inst::new(alloc);
    put_types(alloc, table, types, &mut inst)?;
    put_terms(alloc, table, terms, &mut inst)?;
    check_all_typed(alloc, inst.terms().as_slice())?;
    made(instantiate_thm(alloc, &inst, th))
}

/// The axiom of that number.
fn axiom_copy(alloc: Global, table: &Table, number: u32) -> Result<Thm, LineFail>
    ensures { Makes result (or_form (slice_get table.now.axioms number) Ok) }
{
    let th = table.axiom(number)?;
    Ok(th.copy(alloc)?)
}

/// Where the end of that number stands.
fn end_place(table: &Table, digits: &[u8]) -> Option<usize>
    ensures some { IfSome result (λ n. (any_number digits.now ≡ Some n) × (n < length table.now.ends)) }
    ensures none { IfNone result ((n : ℕ) → any_number digits.now ≡ Some n → length table.now.ends ≤ n) }
{
    let count = table.ends.len();
    match value_within(digits, count as u64) {
        None => None,
        Some(number) => {
            if (number as usize) < count {
                Some(number as usize)
            } else {
                None
            }
        }
    }
}

/// The theorem of an end.
fn theorem_of(alloc: Global, end: &End) -> Result<Thm, LineFail>
    ensures { Makes result (Ok end.now.theorem) }
{
    Ok(end.theorem.copy(alloc)?)
}

/// The end of that number.
fn citation(alloc: Global, table: &Table, digits: &Name) -> Result<Thm, LineFail>
    ensures { Makes result (inferred table.now (Cite digits.now)) }
{
    match end_place(table, digits.as_bytes()) {
        None => Err(LineFail::Form),
        Some(place) => theorem_of(alloc, table.ends.get(place)),
    }
}

/// The theorem of an inference.
pub(crate) fn infer(alloc: Global, table: &Table, rule: &Rule) -> Result<Thm, LineFail>
    ensures { Makes result (inferred table.now rule.now) }
{
    match rule {
        Rule::ByAxiom(number) => axiom_copy(alloc, table, *number),
        Rule::Assume(prop) => assumption(alloc, table, *prop),
        Rule::ImpliesIntr { prop, step } => implication(alloc, table, *prop, *step),
        Rule::ImpliesElim { implication, step } => detachment(alloc, table, *implication, *step),
        Rule::ForallIntr { variable, step } => generality(alloc, table, *variable, *step),
        Rule::ForallElim { term, step } => instance_at(alloc, table, *term, *step),
        Rule::Reflexive(term) => reflexivity(alloc, table, *term),
        Rule::Symmetric(step) => symmetry(alloc, table, *step),
        Rule::Transitive { left, right } => transitivity(alloc, table, *left, *right),
        Rule::Combination { fun, arg } => application(alloc, table, *fun, *arg),
        Rule::AbstractRule { variable, step } => abstraction(alloc, table, *variable, *step),
        Rule::Beta(term) => contraction(alloc, table, *term),
        Rule::Eta(term) => shortening(alloc, table, *term),
        Rule::EqualIntr { there, back } => equivalence(alloc, table, *there, *back),
        Rule::EqualElim { equation, step } => replacement(alloc, table, *equation, *step),
        Rule::InstantiateThm { step, types, terms } => instance(alloc, table, *step, types, terms),
        Rule::Generalize { step, names } => generalization(alloc, table, names, *step),
        Rule::Cite(digits) => citation(alloc, table, digits),
    }
}
