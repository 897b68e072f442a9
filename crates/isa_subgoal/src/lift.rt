//! The lifting of a rule over the parameters and the assumptions of a subgoal.
ghost use Rattle.std.specs.Prelude.{◌≡◌, ◌+◌, ◌++◌, IfOk, None, length, map, false, unwrap_or};
ghost use Rattle.isa_terms.specs.Facts.{has_unknown};
ghost use Rattle.isa_terms.specs.Terms as tm;
ghost use Rattle.isa_subgoal.specs.Lift.{quantified, over_types, applied, lift, lift_over, lifted_prop};

use crate::premises::split_all_premises;
use isa_kernel::{Thm, make_all, make_implies};
use isa_terms::{Name, Term, TermNode, Terms, Typ, function_type};
use std::alloc::{AllocError, Global};

/// A parameter of a subgoal: the name of its binder, and its type.
#[derive(Drop)]
pub struct Parameter {
    pub name: Name,
    pub typ: Typ,
}

/// `!!x1 .. xk. P`.
fn quantified(alloc: Global, parameters: &[Parameter], body: Term) -> Result<Term, AllocError>
    ensures { IfOk result (λ t. t ≡ quantified parameters.now body) }
{
    match parameters.split_first() {
        None => Ok(body),
        Some((first, rest)) => {
            let inner = quantified(alloc, rest, body)?;
            make_all(alloc, &first.name, &first.typ, inner)
        }
    }
}

/// The type of functions from the parameters' types to this one.
fn over_types(alloc: Global, parameters: &[Parameter], typ: &Typ) -> Result<Typ, AllocError>
    ensures { IfOk result (λ t. t ≡ over_types parameters.now typ.now) }
{
    match parameters.split_first() {
        None => typ.copy(),
        Some((first, rest)) => {
            let range = over_types(alloc, rest, typ)?;
            function_type(alloc, first.typ.copy()?, range)
        }
    }
}

/// The number of the parameter that has so many behind it, under `depth` binders more.
fn number_of(behind: usize, depth: u32) -> Result<u32, AllocError>
    ensures { IfOk result (λ number. number ≡ behind + depth) }
{
    let behind = u32::try_from(behind).map_err(|_| AllocError)?;
    behind.checked_add(depth).ok_or(AllocError)
}

/// The term applied to the parameters, the outermost first, under `depth` binders more.
fn applied(
    alloc: Global,
    fun: Term,
    parameters: &[Parameter],
    depth: u32,
) -> Result<Term, AllocError>
    ensures { IfOk result (λ t. t ≡ applied fun (length parameters.now) depth) }
{
    match parameters.split_first() {
        None => Ok(fun),
        Some((_, rest)) => {
            let number = number_of(rest.len(), depth)?;
            let argument = Term::new(alloc, TermNode::Bound(number))?;
            let fun = Term::new(alloc, TermNode::App(fun, argument))?;
            applied(alloc, fun, rest, depth)
        }
    }
}

/// The change of an application by those of its parts.
fn application(
    alloc: Global,
    fun: &Term,
    arg: &Term,
    new_fun: Option<Term>,
    new_arg: Option<Term>,
) -> Result<Option<Term>, AllocError>
    ensures change { IfOk result (λ r. unwrap_or r (tm.App fun.now arg.now) ≡ tm.App (unwrap_or new_fun fun.now) (unwrap_or new_arg arg.now)) }
    ensures kept { new_fun ≡ None → new_arg ≡ None → IfOk result (λ r. r ≡ None) }
{
    if new_fun.is_none() && new_arg.is_none() {
        return Ok(None);
    }
    let fun = or_copy(new_fun, fun)?;
    let arg = or_copy(new_arg, arg)?;
    Ok(Some(Term::new(alloc, TermNode::App(fun, arg))?))
}

/// The changed term, or another owner of the one that was there.
fn or_copy(changed: Option<Term>, t: &Term) -> Result<Term, AllocError>
    ensures { IfOk result (λ r. r ≡ unwrap_or changed t.now) }
{
    match changed {
        None => t.copy(),
        Some(term) => Ok(term),
    }
}

/// The unknown applied to all parameters, the outermost first, under `depth` binders more.
pub(crate) fn lift_unknown(
    alloc: Global,
    parameters: &[Parameter],
    depth: u32,
    name: &Name,
    number: u32,
    typ: &Typ,
) -> Result<Term, AllocError>
    ensures { IfOk result (λ t. t ≡ lift parameters.now depth (tm.Unknown name.now number typ.now)) }
{
    let typ = over_types(alloc, parameters, typ)?;
    let fun = Term::new(alloc, TermNode::Unknown(name.copy()?, number, typ))?;
    applied(alloc, fun, parameters, depth)
}

/// What lifting over the parameters makes of a term under `depth` binders: nothing where it stays as it is, so that a part
/// without unknowns is shared and not rebuilt.
fn lift_change(
    alloc: Global,
    parameters: &[Parameter],
    depth: u32,
    t: &Term,
) -> Result<Option<Term>, AllocError>
    ensures change { IfOk result (λ r. unwrap_or r t.now ≡ lift parameters.now depth t.now) }
    ensures kept { has_unknown t.now ≡ false → IfOk result (λ r. r ≡ None) }
{
    match t.view() {
        TermNode::Const(_, _) | TermNode::Free(_, _) | TermNode::Bound(_) => Ok(None),
        TermNode::Unknown(name, number, typ) => {
            let lifted = lift_unknown(alloc, parameters, depth, name, *number, typ)?;
            Ok(Some(lifted))
        }
        TermNode::Abs(name, typ, body) => {
            let under = depth.checked_add(1).ok_or(AllocError)?;
            match lift_change(alloc, parameters, under, body)? {
                None => Ok(None),
                Some(body) => {
                    let node = TermNode::Abs(name.copy()?, typ.copy()?, body);
                    Ok(Some(Term::new(alloc, node)?))
                }
            }
        }
        TermNode::App(fun, arg) => {
            let new_fun = lift_change(alloc, parameters, depth, fun)?;
            let new_arg = lift_change(alloc, parameters, depth, arg)?;
            application(alloc, fun, arg, new_fun, new_arg)
        }
    }
}

/// The term, in which each unknown is applied to all parameters, under the assumptions and the parameters.
pub(crate) fn lift_over(
    alloc: Global,
    parameters: &[Parameter],
    hyps: &[Term],
    t: &Term,
) -> Result<Term, AllocError>
    ensures { IfOk result (λ r. r ≡ lift_over parameters.now hyps.now t.now) }
{
    let raised = or_copy(lift_change(alloc, parameters, 0, t)?, t)?;
    let assumed = make_implies(alloc, hyps, &raised)?;
    quantified(alloc, parameters, assumed)
}

/// The same of each term, behind those that are done.
pub(crate) fn lift_all_over(
    alloc: Global,
    parameters: &[Parameter],
    hyps: &[Term],
    terms: &[Term],
    mut done: Terms,
) -> Result<Terms, AllocError>
    ensures { IfOk result (λ r. r ≡ done ++ map (lift_over parameters.now hyps.now) terms.now) }
{
    match terms.split_first() {
        None => Ok(done),
        Some((first, rest)) => {
            done.push(lift_over(alloc, parameters, hyps, first)?)?;
            lift_all_over(alloc, parameters, hyps, rest, done)
        }
    }
}

/// The proposition of a rule lifted over the parameters and the assumptions of a subgoal, which may hold the parameters:
/// each of its premises, and its conclusion, under both.
pub fn lifted(
    alloc: Global,
    parameters: &[Parameter],
    hyps: &[Term],
    rule: &Thm,
) -> Result<Term, AllocError>
    ensures { IfOk result (λ t. t ≡ lifted_prop parameters.now hyps.now rule.now) }
{
    let parts = split_all_premises(rule.prop(), Terms::new(alloc))?;
    let terms = parts.premises.as_slice();
    let premises = lift_all_over(alloc, parameters, hyps, terms, Terms::new(alloc))?;
    let conclusion = lift_over(alloc, parameters, hyps, &parts.conclusion)?;
    make_implies(alloc, premises.as_slice(), &conclusion)
}
