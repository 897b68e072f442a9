//! A rule lifted over the parameters and the assumptions of a subgoal, as a theorem.
ghost use Rattle.std.specs.Prelude.{◌≡◌, ◌++◌, [], map, length, IfOk};
ghost use Rattle.isa_subgoal.specs.Premises.{premises};
ghost use Rattle.isa_kernel.specs.Inferences.{Answers};
ghost use Rattle.isa_subgoal.specs.Private.Reshaping.{opened};
ghost use Rattle.isa_subgoal.specs.Lift.{lifted_rule, Lifts, IsLiftable};
ghost use Rattle.isa_subgoal.specs.Private.Lifting.{longest_name, variables_from, turned, lifted_entries, raised_at, specialized, quantified_over, met_over, lifted_over, lifted_by};

use crate::lift::{Parameter, lift_all_over, lift_over, lift_unknown};
use crate::premises::{split_all_premises, split_rule};
use crate::reshaping::{opened, put_first, variable};
use crate::steps::{introduce, raise_by_inferences};
use isa_kernel::{
    InferenceError, Thm, assume, forall_elim, forall_intr, implies_elim, instantiate_thm,
    make_implies, rename,
};
use isa_terms::{Inst, Term, TermNode, Terms, copied};
use std::alloc::{AllocError, Global};

/// The greatest length of the name of a free variable.
fn longest_name(t: &Term) -> usize
    ensures { result ≡ longest_name t.now }
{
    match t.view() {
        TermNode::Free(name, _) => name.len(),
        TermNode::Const(_, _) | TermNode::Unknown(_, _, _) | TermNode::Bound(_) => 0,
        TermNode::Abs(_, _, body) => longest_name(body),
        TermNode::App(fun, arg) => longest_name(fun).max(longest_name(arg)),
    }
}

/// Free variables for the parameters, whose names have that length and more, behind those that are done.
fn variables_from(
    alloc: Global,
    length: usize,
    parameters: &[Parameter],
    mut done: Terms,
) -> Result<Terms, AllocError>
    ensures { IfOk result (λ r. r ≡ done ++ variables_from length parameters.now) }
{
    match parameters.split_first() {
        None => Ok(done),
        Some((first, rest)) => {
            done.push(variable(alloc, length, &first.typ)?)?;
            let more = length.checked_add(1).ok_or(AllocError)?;
            variables_from(alloc, more, rest, done)
        }
    }
}

/// The terms in the other order, before the others.
fn turned(alloc: Global, terms: &[Term], others: &[Term]) -> Result<Terms, AllocError>
    ensures { IfOk result (λ r. r ≡ turned terms.now others.now) }
{
    match terms.split_first() {
        None => copied(alloc, others),
        Some((first, rest)) => {
            let before = put_first(alloc, first, others)?;
            turned(alloc, rest, before.as_slice())
        }
    }
}

/// The terms with the variables, the innermost first, in the place of the binders round them, behind those that are done.
fn all_opened(
    alloc: Global,
    variables: &[Term],
    terms: &[Term],
    mut done: Terms,
) -> Result<Terms, AllocError>
    ensures { IfOk result (λ r. r ≡ done ++ map (opened variables.now 0) terms.now) }
{
    match terms.split_first() {
        None => Ok(done),
        Some((first, rest)) => {
            done.push(opened(alloc, variables, 0, first)?)?;
            all_opened(alloc, variables, rest, done)
        }
    }
}

/// The instance with the unknowns of the term in it, each lifted and at the variables, the innermost first.
fn put_lifted(
    alloc: Global,
    parameters: &[Parameter],
    variables: &[Term],
    t: &Term,
    mut inst: Inst,
) -> Result<Inst, AllocError>
    ensures { IfOk result (λ r. r ≡ record { types = inst.types; terms = lifted_entries parameters.now variables.now t.now inst.terms }) }
{
    match t.view() {
        TermNode::Const(_, _) | TermNode::Free(_, _) | TermNode::Bound(_) => Ok(inst),
        TermNode::Unknown(name, number, typ) => {
            let applied = lift_unknown(alloc, parameters, 0, name, *number, typ)?;
            let term = opened(alloc, variables, 0, &applied)?;
            inst.put_term(alloc, name.copy()?, *number, typ.copy()?, term)?;
            Ok(inst)
        }
        TermNode::Abs(_, _, body) => put_lifted(alloc, parameters, variables, body, inst),
        TermNode::App(fun, arg) => {
            let inst = put_lifted(alloc, parameters, variables, fun, inst)?;
            put_lifted(alloc, parameters, variables, arg, inst)
        }
    }
}

/// The rule of that many premises with its unknowns at the variables, the innermost first, under the assumptions at these.
#[tactic(auto, unfolding(crate::specs::Private::Lifting::raised_at))]
fn raise_at(
    alloc: Global,
    parameters: &[Parameter],
    variables: &[Term],
    assumptions: &[Term],
    count: usize,
    rule: &Thm,
) -> Result<Thm, InferenceError>
    requires { count ≡ length (premises rule.now.prop) }
    ensures { Answers result (raised_at parameters.now variables.now assumptions.now rule.now) }
{
    let inst = put_lifted(alloc, parameters, variables, rule.prop(), Inst::new(alloc))?;
    let instance = instantiate_thm(alloc, &inst, rule)?;
    let Some(parts) = split_rule(alloc, count, &instance)? else {
        return Err(InferenceError::Shape);
    };
    let under = all_opened(alloc, variables, assumptions, Terms::new(alloc))?;
    raise_by_inferences(alloc, under.as_slice(), parts.premises.as_slice(), instance)
}

/// From `!!x1 .. xk. P`, P at the terms in their order.
#[tactic(auto, unfolding(crate::specs::Private::Lifting::specialized))]
fn specialize(alloc: Global, terms: &[Term], th: Thm) -> Result<Thm, InferenceError>
    ensures { Answers result (specialized terms.now th) }
{
    match terms.split_first() {
        None => Ok(th),
        Some((first, rest)) => {
            let next = forall_elim(alloc, first, &th)?;
            specialize(alloc, rest, next)
        }
    }
}

/// `!!x1 .. xk. P` for the variables in their order.
#[tactic(auto, unfolding(crate::specs::Private::Lifting::quantified_over))]
fn quantify(alloc: Global, variables: &[Term], th: Thm) -> Result<Thm, InferenceError>
    ensures { Answers result (quantified_over variables.now th) }
{
    match variables.split_first() {
        None => Ok(th),
        Some((first, rest)) => {
            let inner = quantify(alloc, rest, th)?;
            forall_intr(alloc, first, &inner)
        }
    }
}

/// What is behind the premises, each of which is met by one of the propositions at the variables.
#[tactic(auto, unfolding(crate::specs::Private::Lifting::met_over))]
fn meet_over(
    alloc: Global,
    variables: &[Term],
    props: &[Term],
    th: Thm,
) -> Result<Thm, InferenceError>
    ensures { Answers result (met_over variables.now props.now th) }
{
    match props.split_first() {
        None => Ok(th),
        Some((first, rest)) => {
            let assumed = assume(alloc, first)?;
            let met = specialize(alloc, variables, assumed)?;
            let next = implies_elim(alloc, &th, &met)?;
            meet_over(alloc, variables, rest, next)
        }
    }
}

/// A rule with the premises of those propositions at the variables, these and the conclusion under `!!`s.
#[tactic(auto, unfolding(crate::specs::Private::Lifting::lifted_over))]
fn quantify_rule(
    alloc: Global,
    variables: &[Term],
    premises: &[Term],
    th: Thm,
) -> Result<Thm, InferenceError>
    ensures { Answers result (lifted_over variables.now premises.now th) }
{
    let core = meet_over(alloc, variables, premises, th)?;
    let whole = quantify(alloc, variables, core)?;
    introduce(alloc, premises, whole)
}

/// The rule lifted, from its propositions for the premises and the whole, and variables in both orders.
#[tactic(auto, unfolding(crate::specs::Private::Lifting::lifted_by))]
fn lift_by_inferences(
    alloc: Global,
    parameters: &[Parameter],
    assumptions: &[Term],
    outer: &[Term],
    inner: &[Term],
    props: &[Term],
    whole: &Term,
    rule: &Thm,
) -> Result<Thm, InferenceError>
    requires { length props.now ≡ length (premises rule.now.prop) }
    ensures { Answers result (lifted_by parameters.now assumptions.now outer.now inner.now props.now whole.now rule.now) }
{
    let raised = raise_at(alloc, parameters, inner, assumptions, props.len(), rule)?;
    let lifted = quantify_rule(alloc, outer, props, raised)?;
    rename(alloc, whole, &lifted)
}

/// The lifted rule, or a refusal.
fn lift_checked(
    alloc: Global,
    parameters: &[Parameter],
    assumptions: &[Term],
    rule: &Thm,
) -> Result<Thm, InferenceError>
    ensures theorem { IfOk result (λ th. th ≡ lifted_rule parameters.now assumptions.now rule.now) }
    ensures given { Lifts parameters.now assumptions.now rule.now result }
{
    rule.is_derived();
    let parts = split_all_premises(rule.prop(), Terms::new(alloc))?;
    let terms = parts.premises.as_slice();
    let premises = lift_all_over(alloc, parameters, assumptions, terms, Terms::new(alloc))?;
    let conclusion = lift_over(alloc, parameters, assumptions, &parts.conclusion)?;
    let whole = make_implies(alloc, premises.as_slice(), &conclusion)?;
    let length = longest_name(&whole).checked_add(1).ok_or(AllocError)?;
    let outer = variables_from(alloc, length, parameters, Terms::new(alloc))?;
    let inner = turned(alloc, outer.as_slice(), &[])?;
    let lifted = lift_by_inferences(
        alloc,
        parameters,
        assumptions,
        outer.as_slice(),
        inner.as_slice(),
        premises.as_slice(),
        &whole,
        rule,
    )?;
    if lifted.hyps().len() > 0 {
        return Err(InferenceError::Shape);
    }
    Ok(lifted)
}

/// A rule lifted over the parameters and the assumptions of a subgoal, which stand under the parameters: its unknowns are
/// applied to the parameters, and each premise and the conclusion stand under parameters and assumptions.
///
/// `Shape` comes exactly for a rule with hypotheses, for one not in normal form, and for an assumption that is no proposition
/// under the parameters.
pub fn lift_rule(
    alloc: Global,
    parameters: &[Parameter],
    assumptions: &[Term],
    rule: &Thm,
) -> Result<Thm, InferenceError>
    ensures theorem { IfOk result (λ th. th ≡ lifted_rule parameters.now assumptions.now rule.now) }
    ensures given { Lifts parameters.now assumptions.now rule.now result }
    ensures refused { IfOk result (λ th. IsLiftable parameters.now assumptions.now rule.now) }
{
    if rule.hyps().len() > 0 {
        return Err(InferenceError::Shape);
    }
    if !rule.prop().is_normal() {
        return Err(InferenceError::Shape);
    }
    let lifted = lift_checked(alloc, parameters, assumptions, rule)?;
    lifted.is_derived();
    Ok(lifted)
}
