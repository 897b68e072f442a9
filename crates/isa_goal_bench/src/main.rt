//! How long steps on states of many subgoals take. It prints how many subgoals the last state has.
//!
//! - `isa_goal_bench refine N`: a state of N subgoals, each of which is refined by its own premise, from the first to the last.
//! - `isa_goal_bench solve N`: the same subgoals are solved, from the last to the first.
//! - `isa_goal_bench focus N`: each of the subgoals alone, and put back.
#![tactic(auto)]

use isa_goal::{State, has_counted};
use isa_kernel::{Thm, assume, implies_intr, make_imp, prop_type};
use isa_terms::{Name, Term, TermNode};
use std::alloc::{AllocError, Global};
use std::{env, io};

/// What comes where nothing is refused.
fn granted<T, E: Drop>(answer: Result<T, E>) -> Result<T, AllocError> {
    match answer {
        Ok(value) => Ok(value),
        Err(_) => Err(AllocError),
    }
}

/// The proposition of that name.
fn proposition(alloc: Global, name: &str) -> Result<Term, AllocError> {
    let name = Name::from_text(alloc, name)?;
    Term::new(alloc, TermNode::Free(name, prop_type(alloc)?))
}

/// `A ==> A`.
fn identity(alloc: Global) -> Result<Term, AllocError> {
    let a = proposition(alloc, "A")?;
    make_imp(alloc, &a, &a)
}

/// `A ==> A` as a theorem, or with it as its own premise.
fn trivial(alloc: Global, a: &Term) -> Result<Thm, AllocError> {
    let assumed = granted(assume(alloc, a))?;
    granted(implies_intr(alloc, a, &assumed))
}

/// `B ==> .. ==> B ==> Q`, with so many premises.
fn with_premises(alloc: Global, b: &Term, q: &Term, count: usize) -> Result<Thm, AllocError> {
    let mut th = granted(assume(alloc, q))?;
    th = granted(implies_intr(alloc, q, &th))?;
    for _premise in 0..count {
        th = granted(implies_intr(alloc, b, &th))?;
    }
    Ok(th)
}

/// The state after the theorem refined it.
fn refined(
    alloc: Global,
    state: &State,
    place: usize,
    th: &Thm,
    count: usize,
) -> Result<State, AllocError> {
    if has_counted(th.prop()) {
        return Err(AllocError);
    }
    granted(state.refine(alloc, place, th, count))
}

/// The proposition as a state.
fn started(alloc: Global, goal: &Term) -> Result<State, AllocError> {
    if has_counted(goal) {
        return Err(AllocError);
    }
    granted(State::start(alloc, goal))
}

/// So many subgoals `A ==> A`, and then Q.
fn many(alloc: Global, count: usize) -> Result<State, AllocError> {
    let q = proposition(alloc, "Q")?;
    let th = with_premises(alloc, &identity(alloc)?, &q, count)?;
    let premises = count.saturating_add(1);
    refined(alloc, &started(alloc, &q)?, 1, &th, premises)
}

/// Each subgoal refined by its own premise.
fn refine(alloc: Global, count: usize) -> Result<State, AllocError> {
    let th = trivial(alloc, &identity(alloc)?)?;
    let mut state = many(alloc, count)?;
    for place in 0..count {
        state = refined(alloc, &state, place + 1, &th, 1)?;
    }
    Ok(state)
}

/// All subgoals but the last solved.
fn solve(alloc: Global, count: usize) -> Result<State, AllocError> {
    let th = trivial(alloc, &proposition(alloc, "A")?)?;
    let mut state = many(alloc, count)?;
    for solved in 0..count {
        state = refined(alloc, &state, count - solved, &th, 0)?;
    }
    Ok(state)
}

/// The subgoal alone, and put back, where it is there.
fn refocused(alloc: Global, state: &State, place: usize) -> Result<State, AllocError> {
    if place == 0 || place > state.subgoals().len() {
        return Err(AllocError);
    }
    let alone = state.focus(alloc, place)?;
    state.unfocus(alloc, &alone, place)
}

/// Each subgoal alone, and put back.
fn focus(alloc: Global, count: usize) -> Result<State, AllocError> {
    let mut state = many(alloc, count)?;
    for place in 0..count {
        state = refocused(alloc, &state, place + 1)?;
    }
    Ok(state)
}

/// How many subgoals the state of this kind has.
fn found(alloc: Global, kind: &str, count: usize) -> Result<usize, AllocError> {
    let state = if kind == "refine" {
        refine(alloc, count)?
    } else if kind == "solve" {
        solve(alloc, count)?
    } else {
        focus(alloc, count)?
    };
    Ok(state.subgoals().len())
}

/// The number that a word is, and 0 where it is none.
fn number(word: Option<String>) -> usize {
    match word {
        Some(word) => word.as_str().parse::<usize>().unwrap_or(0),
        None => 0,
    }
}

fn main(rt: HostRuntime) -> io::Result<()> {
    let alloc = rt.alloc();
    let mut words = env::args(&rt)?;
    let _program = words.next();
    let kind = words.next().unwrap_or(String::new(alloc));
    let count = number(words.next());
    let subgoals = found(alloc, kind.as_str(), count)?;
    println!(rt; "{kind}: {subgoals} subgoals")
}
