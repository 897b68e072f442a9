use crate::desk::Desk;
use isa_goal::{Found, How, Mode, Resolve, State, are_first_order, have_counted};
use isa_kernel::{Thm, Thms};
use isa_sketch::{Bench, Fault, is_word, number, split};
use std::alloc::Global;

/// Begins a search by the words `STATE PLACE` and theorems, as `T , U`.
pub fn search_row(alloc: Global, desk: &mut Desk, rest: &str) -> Result<bool, Fault> {
    let search = searched(alloc, desk, rest)?;
    desk.begin(search);
    Ok(true)
}

fn searched(alloc: Global, desk: &Desk, rest: &str) -> Result<Resolve, Fault> {
    let (name, rest) = split(rest)?;
    let (place, words) = split(rest)?;
    let rules = rules(alloc, &desk.bench, words)?;
    started(alloc, &rules, desk.state(name)?, number(place)?)
}

fn started(alloc: Global, rules: &Thms, state: &State, place: usize) -> Result<Resolve, Fault> {
    if !are_first_order(rules) {
        return Err(Fault::Words);
    }
    if state.has_parameter(place) {
        return Err(Fault::Words);
    }
    if have_counted(rules) {
        return Err(Fault::Words);
    }
    Ok(Resolve::start(alloc, rules, state, place, Mode::Intro, How::Match)?)
}

fn rules(alloc: Global, bench: &Bench, text: &str) -> Result<Thms, Fault> {
    let mut all = Thms::new(alloc);
    for words in text.split(" , ") {
        push(&mut all, bench.thm(alloc, words)?)?;
    }
    Ok(all)
}

fn push(all: &mut Thms, rule: Thm) -> Result<(), Fault> {
    Ok(all.push(rule)?)
}

/// The state that the search gives next.
pub fn next(alloc: Global, desk: &mut Desk) -> Result<Option<State>, Fault> {
    match found(alloc, desk.search()?)? {
        Some(Found::Res(state)) => Ok(Some(state)),
        Some(Found::Outside) => Err(Fault::Words),
        None => Ok(None),
    }
}

fn found(alloc: Global, search: &mut Resolve) -> Result<Option<Found>, Fault> {
    Ok(search.next(alloc)?)
}

/// Whether the search is at its end, and that is wanted.
pub fn next_row(alloc: Global, desk: &mut Desk, wanted: &str) -> Result<bool, Fault> {
    match next(alloc, desk)? {
        Some(_) => Ok(false),
        None => Ok(is_word(wanted, "end")),
    }
}
