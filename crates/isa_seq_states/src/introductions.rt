//! Introduction by rules, as primitives.

use crate::run::Run;
use isa_goal::{Found, How, Mode, Resolve, State, are_first_order, have_counted};
use isa_kernel::Thms;
use isa_seq::{Event, Prims};
use std::alloc::{AllocError, Global};

/// Introductions by matching: each is a list of rules, tried in order on a subgoal.
#[derive(Clone, Copy, Debug)]
pub struct Introductions;

impl Prims for Introductions {
    ghost use Rattle.isa_seq_states.specs.Introductions.{introductions};
    ghost use Rattle.isa_seq_states.specs.Laws.{introductions-is_meaning};

    type State = State;

    type Prim = Thms;

    type Run = Run;

    ghost meaning = { λ _. introductions };

    ghost is_meaning = { λ _. introductions-is_meaning };

    fn begin(
        &self,
        alloc: Global,
        rules: &Thms,
        state: &State,
        number: usize,
    ) -> Result<Run, AllocError> {
        let mut search = None;
        if are_first_order(rules) && !have_counted(rules) && !state.has_parameter(number) {
            search = Some(Resolve::start(alloc, rules, state, number, Mode::Intro, How::Match)?);
        }
        Ok(Run {
            ticked: false,
            search,
        })
    }

    fn next(&self, alloc: Global, run: &mut Run) -> Result<Option<Event<State>>, AllocError> {
        if !run.ticked {
            run.ticked = true;
            return Ok(Some(Event::Tick));
        }
        let Some(search) = &mut run.search else {
            return Ok(None);
        };
        match search.next(alloc)? {
            None => Ok(None),
            Some(Found::Outside) => Ok(Some(Event::Outside)),
            Some(Found::Res(state)) => Ok(Some(Event::Res(state))),
        }
    }

    fn subgoals(&self, state: &State) -> usize {
        state.subgoals().len()
    }

    fn same(&self, a: &State, b: &State) -> bool {
        a.same(b)
    }

    fn measure(&self, state: &State) -> u64 {
        state.measure()
    }

    fn focus(&self, alloc: Global, state: &State, number: usize) -> Result<State, AllocError> {
        state.focus(alloc, number)
    }

    fn unfocus(
        &self,
        alloc: Global,
        state: &State,
        inner: &State,
        number: usize,
    ) -> Result<State, AllocError> {
        state.unfocus(alloc, inner, number)
    }

    fn copy(&self, alloc: Global, state: &State) -> Result<State, AllocError> {
        state.copy(alloc)
    }
}
