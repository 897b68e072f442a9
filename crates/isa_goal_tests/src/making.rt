ghost use Rattle.std.specs.Prelude.{◌<◌, ◌≤◌, IsTrue};

use crate::desk::Desk;
use crate::searching::next;
use isa_goal::{State, has_counted, inst_has_counted};
use isa_kernel::{InferenceError, Thm, instantiate_thm};
use isa_sketch::{Bench, Fault, number, split};
use isa_terms::{Inst, Term};
use std::alloc::{AllocError, Global};

/// The state that the call makes.
pub fn made(alloc: Global, desk: &mut Desk, verb: &str, rest: &str) -> Result<State, Fault> {
    match verb {
        "start" => start(alloc, &desk.bench, rest),
        "refine" => refine(alloc, desk, rest),
        "refine_inst" => refine_inst(alloc, desk, rest),
        "focus" => focus(alloc, desk, rest),
        "unfocus" => unfocus(alloc, desk, rest),
        "copy" => copy(alloc, desk, rest),
        "next" => next(alloc, desk)?.ok_or(Fault::Words),
        _ => Err(Fault::Words),
    }
}

fn start(alloc: Global, bench: &Bench, rest: &str) -> Result<State, Fault> {
    let goal = bench.term(alloc, rest)?;
    started(alloc, &goal)
}

fn started(alloc: Global, goal: &Term) -> Result<State, Fault> {
    if has_counted(goal) {
        return Err(Fault::Words);
    }
    answered(State::start(alloc, goal))
}

/// By the words `STATE PLACE COUNT` and a theorem.
fn refine(alloc: Global, desk: &Desk, rest: &str) -> Result<State, Fault> {
    let (name, rest) = split(rest)?;
    let (place, rest) = split(rest)?;
    let (count, words) = split(rest)?;
    let th = desk.bench.thm(alloc, words)?;
    refined(
        alloc,
        desk.state(name)?,
        number(place)?,
        &th,
        number(count)?,
    )
}

fn refined(
    alloc: Global,
    state: &State,
    place: usize,
    th: &Thm,
    count: usize,
) -> Result<State, Fault> {
    if has_counted(th.prop()) {
        return Err(Fault::Words);
    }
    answered(state.refine(alloc, place, th, count))
}

/// By the words `STATE PLACE COUNT`, entries of an instance, and a theorem.
fn refine_inst(alloc: Global, desk: &Desk, rest: &str) -> Result<State, Fault> {
    let (name, rest) = split(rest)?;
    let (place, rest) = split(rest)?;
    let (count, words) = split(rest)?;
    let mut stack = desk.bench.read(alloc, words)?;
    let th = stack.take_thm()?;
    refined_inst(
        alloc,
        desk.state(name)?,
        number(place)?,
        stack.inst(),
        &th,
        number(count)?,
    )
}

/// An instance that the theorem does not have is a fault of the words.
fn refined_inst(
    alloc: Global,
    state: &State,
    place: usize,
    inst: &Inst,
    th: &Thm,
    count: usize,
) -> Result<State, Fault> {
    if has_counted(th.prop()) {
        return Err(Fault::Words);
    }
    if inst_has_counted(inst) {
        return Err(Fault::Words);
    }
    match instantiate_thm(alloc, inst, th) {
        Ok(_) => answered(state.refine_inst(alloc, place, inst, th, count)),
        Err(_) => Err(Fault::Words),
    }
}

/// By the words `STATE PLACE`.
fn focus(alloc: Global, desk: &Desk, rest: &str) -> Result<State, Fault> {
    let (name, place) = split(rest)?;
    focused(alloc, desk.state(name)?, number(place)?)
}

fn focused(alloc: Global, state: &State, place: usize) -> Result<State, Fault> {
    if is_place(place, state.subgoals().len()) {
        granted(state.focus(alloc, place))
    } else {
        Err(Fault::Words)
    }
}

/// Whether one of so many has that number, counted from 1.
fn is_place(place: usize, count: usize) -> bool
    ensures first { IsTrue result → 0 < place }
    ensures last { IsTrue result → place ≤ count }
{
    0 < place && place <= count
}

fn granted(answer: Result<State, AllocError>) -> Result<State, Fault> {
    match answer {
        Ok(state) => Ok(state),
        Err(_) => Err(Fault::Memory),
    }
}

/// By the words `STATE INNER PLACE`.
fn unfocus(alloc: Global, desk: &Desk, rest: &str) -> Result<State, Fault> {
    let (name, rest) = split(rest)?;
    let (inner, place) = split(rest)?;
    unfocused(alloc, desk.state(name)?, desk.state(inner)?, number(place)?)
}

fn unfocused(alloc: Global, state: &State, inner: &State, place: usize) -> Result<State, Fault> {
    if place == 0 {
        return Err(Fault::Words);
    }
    granted(state.unfocus(alloc, inner, place))
}

fn copy(alloc: Global, desk: &Desk, name: &str) -> Result<State, Fault> {
    Ok(desk.state(name)?.copy(alloc)?)
}

fn answered(answer: Result<State, InferenceError>) -> Result<State, Fault> {
    match answer {
        Ok(state) => Ok(state),
        Err(InferenceError::Shape) => Err(Fault::Shape),
        Err(InferenceError::Memory) => Err(Fault::Memory),
    }
}
