//! The first place of a term that decides for an unknown.

ghost use Rattle.std.specs.Prelude.{◌≡◌, ◌∷◌, [], ◌++◌, false, cond, filter, IfOk, IsTrue};
ghost use Rattle.isa_unify.specs.Spines.{has_number, is_flexible};
ghost use Rattle.isa_unify.specs.declared.progress.Verdict.TheVariants.{Fine, Refused};
ghost use Rattle.isa_unify.specs.Unification.{allowed, at_pattern, at_unknown, first_place};

use crate::equation::{Binders, Variable};
use crate::numbers::Numbers;
use crate::patterns::{Pattern, Unknown};
use crate::progress::Verdict;
use crate::spines::{args_of, distinct_bounds, has_number, head_of, is_flexible};
use isa_terms::{Name, Term, TermNode, Typ};
use std::alloc::{AllocError, Global};

/// Whether the variable under so many binders of the term is one of these, or one of the unknown's.
fn is_allowed(variables: &[u32], depth: u32, number: u32) -> bool
    ensures { result ≡ allowed variables.now depth number }
{
    if number < depth {
        true
    } else {
        has_number(variables, number - depth)
    }
}

/// The numbers that are allowed.
fn allowed_of(
    alloc: Global,
    variables: &[u32],
    depth: u32,
    numbers: &[u32],
) -> Result<Numbers, AllocError>
    ensures { IfOk result (λ kept. kept ≡ filter (allowed variables.now depth) numbers.now) }
{
    let mut kept = Numbers::new(alloc);
    for number in numbers {
        if is_allowed(variables, depth, *number) {
            kept.push(*number)?;
        }
    }
    Ok(kept)
}

/// The numbers that are in the other list.
pub fn shared_of(alloc: Global, others: &[u32], numbers: &[u32]) -> Result<Numbers, AllocError>
    ensures { IfOk result (λ kept. kept ≡ filter (has_number others.now) numbers.now) }
{
    let mut kept = Numbers::new(alloc);
    for number in numbers {
        if has_number(others, *number) {
            kept.push(*number)?;
        }
    }
    Ok(kept)
}

/// An unknown on distinct variables: the one that is solved, or another.
fn at_pattern(
    alloc: Global,
    solved: &Pattern<'_>,
    depth: u32,
    binders: &Binders,
    other: &Unknown<'_>,
    variables: Numbers,
) -> Result<Verdict, AllocError>
    ensures { IfOk result (λ v. v ≡ at_pattern solved.now.unknown.name.now solved.now.unknown.number solved.now.variables depth binders.now other.now.name.now other.now.number other.now.typ.now variables) }
{
    let unknown = &solved.unknown;
    if unknown.name.same(other.name) && unknown.number == other.number {
        return Ok(Verdict::Refused);
    }
    let kept = allowed_of(
        alloc,
        solved.variables.as_slice(),
        depth,
        variables.as_slice(),
    )?;
    if kept.len() == variables.len() {
        return Ok(Verdict::Fine);
    }
    Ok(Verdict::Prunes(
        other.name.copy()?,
        other.number,
        other.typ.copy()?,
        binders.copy()?,
        variables,
        kept,
    ))
}

/// A term whose head is an unknown.
fn at_unknown(
    alloc: Global,
    solved: &Pattern<'_>,
    depth: u32,
    binders: &Binders,
    head: &Term,
    args: &[Term],
) -> Result<Verdict, AllocError>
    ensures { IfOk result (λ v. v ≡ at_unknown solved.now.unknown.name.now solved.now.unknown.number solved.now.variables depth binders.now head.now args.now) }
{
    match head.view() {
        TermNode::Unknown(name, number, typ) => match distinct_bounds(alloc, args)? {
            None => Ok(Verdict::Strays),
            Some(variables) => {
                let number = *number;
                let other = Unknown { name, number, typ };
                at_pattern(alloc, solved, depth, binders, &other, variables)
            }
        },
        _ => Ok(Verdict::Fine),
    }
}

/// A bound variable.
fn at_bound(variables: &[u32], depth: u32, number: u32) -> Verdict
    ensures { result ≡ cond (allowed variables.now depth number) Fine Refused }
{
    if is_allowed(variables, depth, number) {
        Verdict::Fine
    } else {
        Verdict::Refused
    }
}

/// The binders under one more.
fn entered(alloc: Global, binders: &Binders, name: &Name, typ: &Typ) -> Result<Binders, AllocError>
    ensures { IfOk result (λ bs. bs ≡ record { name = name.now; typ = typ.now } ∷ binders.now) }
{
    let variable = Variable {
        name: name.copy()?,
        typ: typ.copy()?,
    };
    binders.under(alloc, variable)
}

/// What the first place that decides, in preorder, says.
pub fn first_place(
    alloc: Global,
    solved: &Pattern<'_>,
    depth: u32,
    binders: &Binders,
    t: &Term,
) -> Result<Verdict, AllocError>
    ensures { IfOk result (λ v. v ≡ first_place solved.now.unknown.name.now solved.now.unknown.number solved.now.variables depth binders.now t.now) }
{
    first_part(alloc, solved, depth, binders, t, false)
}

/// The same of a term, or of one that was a function part of it: then no unknown stands at its head.
#[tactic(auto, using(crate::proofs::Unvisited::fine_within))]
fn first_part(
    alloc: Global,
    solved: &Pattern<'_>,
    depth: u32,
    binders: &Binders,
    t: &Term,
    is_rigid: bool,
) -> Result<Verdict, AllocError>
    requires { IsTrue is_rigid → is_flexible t.now ≡ false }
    ensures { IfOk result (λ v. v ≡ first_place solved.now.unknown.name.now solved.now.unknown.number solved.now.variables depth binders.now t.now) }
{
    if !t.has_unknowns() && t.loose_end() <= u64::from(depth) {
        return Ok(Verdict::Fine);
    }
    match t.view() {
        TermNode::Const(_, _) | TermNode::Free(_, _) => Ok(Verdict::Fine),
        TermNode::Unknown(name, number, typ) => {
            let number = *number;
            let other = Unknown { name, number, typ };
            at_pattern(alloc, solved, depth, binders, &other, Numbers::new(alloc))
        }
        TermNode::Bound(number) => Ok(at_bound(solved.variables.as_slice(), depth, *number)),
        TermNode::Abs(name, typ, body) => {
            let under = depth.checked_add(1).ok_or(AllocError)?;
            let binders = entered(alloc, binders, name, typ)?;
            first_part(alloc, solved, under, &binders, body, false)
        }
        TermNode::App(fun, arg) => {
            if !is_rigid && is_flexible(fun) {
                let mut args = args_of(alloc, fun)?;
                args.push(arg.copy()?)?;
                return at_unknown(alloc, solved, depth, binders, head_of(fun), args.as_slice());
            }
            match first_part(alloc, solved, depth, binders, fun, true)? {
                Verdict::Fine => first_part(alloc, solved, depth, binders, arg, false),
                verdict => Ok(verdict),
            }
        }
    }
}
