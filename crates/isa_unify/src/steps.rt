//! The steps of unification.

ghost use Rattle.std.specs.Prelude.{◌≡◌, ◌++◌, IfOk};
ghost use Rattle.isa_terms.specs.Terms as tm;
ghost use Rattle.isa_unify.specs.Spines.{head_of, args_of, distinct_bounds};
ghost use Rattle.isa_unify.specs.Steps.{taken, prune};
ghost use Rattle.isa_unify.specs.Unification.{agreeing, assigned, renewed, both_become, solve, solve_same, solve_two, solve_unknowns, on_pattern, flexible_step, after_types, front_step, parts_at, unify_step, unified};

use crate::abstractions::{abstracted, over, range_behind};
use crate::clashing::unified_types;
use crate::equation::{Binders, Equation};
use crate::late::Late;
use crate::numbers::Numbers;
use crate::parts::parts_at;
use crate::patterns::{Pattern, Unknown};
use crate::places::{first_place, shared_of};
use crate::progress::{Answer, Parts, Progress, State, Verdict};
use crate::spines::{args_of, distinct_bounds, head_of};
use isa_terms::{Term, TermEntries, TermEntry, TermNode};
use std::alloc::{AllocError, Global};

/// The unknown with its term.
fn entry_of(solved: &Unknown<'_>, term: Term) -> Result<TermEntry, AllocError>
    ensures { IfOk result (λ e. e ≡ record { name = solved.now.name.now; number = solved.now.number; typ = solved.now.typ.now; term = term }) }
{
    Ok(TermEntry {
        name: solved.name.copy()?,
        number: solved.number,
        typ: solved.typ.copy()?,
        term,
    })
}

/// The unknown becomes the term.
fn assigned(
    alloc: Global,
    state: Late,
    solved: &Pattern<'_>,
    term: Term,
) -> Result<Late, AllocError>
    ensures { IfOk result (λ s. s ≡ assigned state solved.now.unknown.name.now solved.now.unknown.number solved.now.unknown.typ.now term) }
{
    let mut entries = TermEntries::new(alloc);
    entries.push(entry_of(&solved.unknown, term)?)?;
    state.filled(entries)
}

/// The unknown becomes the new one of that number over the variables that it keeps.
fn renewed(
    alloc: Global,
    state: Late,
    binders: &Binders,
    solved: &Pattern<'_>,
    new: u32,
    kept: &[u32],
) -> Result<Late, AllocError>
    ensures { IfOk result (λ s. s ≡ renewed state binders.now solved.now.unknown.name.now solved.now.unknown.number solved.now.unknown.typ.now solved.now.variables new kept.now) }
{
    let variables = solved.variables.as_slice();
    let range = range_behind(variables, solved.unknown.typ);
    let unknown = over(alloc, binders, solved.unknown.name, new, kept, range)?;
    let term = abstracted(alloc, binders, variables, &unknown)?;
    assigned(alloc, state, solved, term)
}

/// An unknown of the term loses variables, and the equation comes again.
fn prune(
    alloc: Global,
    state: Late,
    equation: &Equation,
    binders: &Binders,
    pruned: &Pattern<'_>,
    kept: &[u32],
) -> Result<Progress, AllocError>
    ensures { IfOk result (λ p. p ≡ taken (prune state equation.now binders.now pruned.now.unknown.name.now pruned.now.unknown.number pruned.now.unknown.typ.now pruned.now.variables kept.now)) }
{
    if state.left() == 0 {
        return Ok(Progress::Ended(Answer::Outside));
    }
    let new = state.next();
    let mut state = state.after_new()?;
    state.put_first(equation.copy()?)?;
    Ok(Progress::Going(renewed(alloc, state, binders, pruned, new, kept)?))
}

/// An unknown on variables against a rigid term.
fn solve(
    alloc: Global,
    state: Late,
    equation: &Equation,
    solved: &Pattern<'_>,
    t: &Term,
) -> Result<Progress, AllocError>
    ensures { IfOk result (λ p. p ≡ taken (solve state equation.now solved.now.unknown.name.now solved.now.unknown.number solved.now.unknown.typ.now solved.now.variables t.now)) }
{
    match first_place(alloc, solved, 0, &equation.binders, t)? {
        Verdict::Fine => {
            let term = abstracted(alloc, &equation.binders, solved.variables.as_slice(), t)?;
            Ok(Progress::Going(assigned(alloc, state, solved, term)?))
        }
        Verdict::Refused => Ok(Progress::Ended(Answer::No)),
        Verdict::Strays => Ok(Progress::Ended(Answer::Outside)),
        Verdict::Prunes(name, number, typ, binders, variables, kept) => {
            let unknown = Unknown {
                name: &name,
                number,
                typ: &typ,
            };
            let pruned = Pattern { unknown, variables };
            prune(alloc, state, equation, &binders, &pruned, kept.as_slice())
        }
    }
}

/// `done` with the variables at the places where both lists agree behind it.
fn agreeing(left: &[u32], right: &[u32], mut done: Numbers) -> Result<Numbers, AllocError>
    ensures { IfOk result (λ ns. ns ≡ done ++ agreeing left.now right.now) }
{
    match (left.split_first(), right.split_first()) {
        (Some((first, rest)), Some((other, others))) => {
            if *first == *other {
                done.push(*first)?;
            }
            agreeing(rest, others, done)
        }
        _ => Ok(done),
    }
}

/// An unknown on variables against itself on others.
fn solve_same(
    alloc: Global,
    state: Late,
    equation: &Equation,
    solved: &Pattern<'_>,
    others: &[u32],
) -> Result<Progress, AllocError>
    ensures { IfOk result (λ p. p ≡ taken (solve_same state equation.now solved.now.unknown.name.now solved.now.unknown.number solved.now.unknown.typ.now solved.now.variables others.now)) }
{
    let kept = agreeing(solved.variables.as_slice(), others, Numbers::new(alloc))?;
    if kept.len() == solved.variables.len() {
        return Ok(Progress::Going(state));
    }
    if state.left() == 0 {
        return Ok(Progress::Ended(Answer::Outside));
    }
    let new = state.next();
    let state = state.after_new()?;
    Ok(Progress::Going(renewed(
        alloc,
        state,
        &equation.binders,
        solved,
        new,
        kept.as_slice(),
    )?))
}

/// Two unknowns become abstractions of one term.
fn both_become(
    alloc: Global,
    state: Late,
    equation: &Equation,
    left: &Pattern<'_>,
    right: &Pattern<'_>,
    shared: &Term,
) -> Result<Late, AllocError>
    ensures { IfOk result (λ s. s ≡ both_become state equation.now left.now.unknown.name.now left.now.unknown.number left.now.unknown.typ.now left.now.variables right.now.unknown.name.now right.now.unknown.number right.now.unknown.typ.now right.now.variables shared.now) }
{
    let binders = &equation.binders;
    let mut entries = TermEntries::new(alloc);
    let left_term = abstracted(alloc, binders, left.variables.as_slice(), shared)?;
    entries.push(entry_of(&left.unknown, left_term)?)?;
    let right_term = abstracted(alloc, binders, right.variables.as_slice(), shared)?;
    entries.push(entry_of(&right.unknown, right_term)?)?;
    state.filled(entries)
}

/// An unknown on variables against another one.
fn solve_two(
    alloc: Global,
    state: Late,
    equation: &Equation,
    left: &Pattern<'_>,
    right: &Pattern<'_>,
) -> Result<Progress, AllocError>
    ensures { IfOk result (λ p. p ≡ taken (solve_two state equation.now left.now.unknown.name.now left.now.unknown.number left.now.unknown.typ.now left.now.variables right.now.unknown.name.now right.now.unknown.number right.now.unknown.typ.now right.now.variables)) }
{
    if state.left() == 0 {
        return Ok(Progress::Ended(Answer::Outside));
    }
    let new = state.next();
    let variables = left.variables.as_slice();
    let kept = shared_of(alloc, right.variables.as_slice(), variables)?;
    let range = range_behind(variables, left.unknown.typ);
    let shared = over(
        alloc,
        &equation.binders,
        left.unknown.name,
        new,
        kept.as_slice(),
        range,
    )?;
    let state = state.after_new()?;
    Ok(Progress::Going(both_become(alloc, state, equation, left, right, &shared)?))
}

/// Two unknowns on variables.
fn solve_unknowns(
    alloc: Global,
    state: Late,
    equation: &Equation,
    left: &Pattern<'_>,
    right: &Pattern<'_>,
) -> Result<Progress, AllocError>
    ensures { IfOk result (λ p. p ≡ taken (solve_unknowns state equation.now left.now.unknown.name.now left.now.unknown.number left.now.unknown.typ.now left.now.variables right.now.unknown.name.now right.now.unknown.number right.now.unknown.typ.now right.now.variables)) }
{
    if left.unknown.name.same(right.unknown.name) && left.unknown.number == right.unknown.number {
        solve_same(alloc, state, equation, left, right.variables.as_slice())
    } else {
        solve_two(alloc, state, equation, left, right)
    }
}

/// The variables to which the head of the term is applied, where they are distinct.
fn variables_of(alloc: Global, t: &Term) -> Result<Option<Numbers>, AllocError>
    ensures { IfOk result (λ ns. ns ≡ distinct_bounds (args_of t.now)) }
{
    let args = args_of(alloc, t)?;
    distinct_bounds(alloc, args.as_slice())
}

/// Two unknowns at the heads of both sides.
fn solve_both(
    alloc: Global,
    state: Late,
    equation: &Equation,
    left: Unknown<'_>,
    right: Unknown<'_>,
) -> Result<Progress, AllocError>
    ensures { IfOk result (λ p. p ≡ taken (flexible_step state equation.now (tm.Unknown left.entry.name.now left.entry.number left.entry.typ.now) (tm.Unknown right.entry.name.now right.entry.number right.entry.typ.now))) }
{
    let Some(variables) = variables_of(alloc, &equation.left)? else {
        return Ok(Progress::Ended(Answer::Outside));
    };
    let Some(others) = variables_of(alloc, &equation.right)? else {
        return Ok(Progress::Ended(Answer::Outside));
    };
    let left = Pattern {
        unknown: left,
        variables,
    };
    let right = Pattern {
        unknown: right,
        variables: others,
    };
    solve_unknowns(alloc, state, equation, &left, &right)
}

/// An unknown at the head of one side against the other, which is rigid.
fn solve_side(
    alloc: Global,
    state: Late,
    equation: &Equation,
    head: Unknown<'_>,
    side: &Term,
    other: &Term,
) -> Result<Progress, AllocError>
    ensures { IfOk result (λ p. p ≡ taken (on_pattern (distinct_bounds (args_of side.now)) (λ xs. solve state equation.now head.entry.name.now head.entry.number head.entry.typ.now xs other.now))) }
{
    let Some(variables) = variables_of(alloc, side)? else {
        return Ok(Progress::Ended(Answer::Outside));
    };
    let solved = Pattern {
        unknown: head,
        variables,
    };
    solve(alloc, state, equation, &solved, other)
}

/// An equation with a flexible side.
fn flexible_step(alloc: Global, state: Late, equation: &Equation) -> Result<Progress, AllocError>
    ensures { IfOk result (λ p. p ≡ taken (flexible_step state equation.now (head_of equation.now.left) (head_of equation.now.right))) }
{
    let left = &equation.left;
    let right = &equation.right;
    match (head_of(left).view(), head_of(right).view()) {
        (TermNode::Unknown(name, number, typ), TermNode::Unknown(other, count, kind)) => {
            let number = *number;
            let head = Unknown { name, number, typ };
            let number = *count;
            let against = Unknown {
                name: other,
                number,
                typ: kind,
            };
            solve_both(alloc, state, equation, head, against)
        }
        (TermNode::Unknown(name, number, typ), _) => {
            let number = *number;
            let head = Unknown { name, number, typ };
            solve_side(alloc, state, equation, head, left, right)
        }
        (_, TermNode::Unknown(name, number, typ)) => {
            let number = *number;
            let head = Unknown { name, number, typ };
            solve_side(alloc, state, equation, head, right, left)
        }
        _ => Ok(Progress::Ended(Answer::No)),
    }
}

/// The equation before those of the state.
fn front_step(alloc: Global, mut state: Late, equation: &Equation) -> Result<Progress, AllocError>
    ensures { IfOk result (λ p. p ≡ taken (front_step state equation.now (parts_at equation.now.binders equation.now.left equation.now.right))) }
{
    match parts_at(alloc, &equation.binders, &equation.left, &equation.right)? {
        Parts::Flexible => flexible_step(alloc, state, equation),
        Parts::Clash => Ok(Progress::Ended(Answer::No)),
        Parts::Into(parts) => {
            state.put_all_first(parts)?;
            Ok(Progress::Going(state))
        }
        Parts::Heads(left, right, parts) => {
            state.put_all_first(parts)?;
            match unified_types(alloc, left, right)? {
                None => Ok(Progress::Ended(Answer::No)),
                Some(types) => Ok(Progress::Going(state.retyped(alloc, types.as_slice())?)),
            }
        }
    }
}

/// Takes the first equation, until none is left.
#[tactic(auto, unfolding(crate::specs::Unification::unify_step))]
fn advance(alloc: Global, mut state: Late) -> Result<Progress, AllocError>
    ensures { IfOk result (λ p. p ≡ taken (unify_step state)) }
{
    match state.take_first(alloc)? {
        Some(equation) => front_step(alloc, state, &equation),
        None => Ok(Progress::Ended(state.answer(alloc)?)),
    }
}

/// The end of the steps.
#[tactic(auto, using(crate::proofs::Loops::step_same, crate::proofs::Loops::step_falls, crate::proofs::Loops::step_ends))]
pub fn unified(alloc: Global, start: State) -> Result<Answer, AllocError>
    ensures { IfOk result (λ a. a ≡ unified start) }
{
    let mut state = Late::of(alloc, start)?;
    'steps: loop {
        match advance(alloc, state)? {
            Progress::Going(next) => state = next,
            Progress::Ended(answer) => return Ok(answer),
        }
    }
}
