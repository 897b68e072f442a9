//! States that are numbers: the last digit is the number of subgoals, and the others tell the way that was taken.
#![tactic(auto)]

use crate::run::Run;
use isa_seq::{Event, Prims};
use std::alloc::{AllocError, Global};

/// A primitive.
#[derive(Clone, Copy, Debug)]
pub enum Step {
    /// Solves a subgoal, in so many ways: the number falls by one, and each way after the first adds ten more.
    Solve(usize),
    /// Adds ten to a number below this one.
    Climb(u64),
    /// Leaves the patterns.
    Stray,
}

/// The primitives on numbers.
#[derive(Clone, Copy, Debug)]
pub struct Numbers;

impl Prims for Numbers {
    ghost use Rattle.isa_seq_numbers.specs.Numbers.{numbers};
    ghost use Rattle.isa_seq_numbers.specs.Laws.{numbers-is_meaning};

    type State = u64;

    type Prim = Step;

    type Run = Run;

    ghost meaning = { λ _. numbers };

    ghost is_meaning = { λ _. numbers-is_meaning };

    fn begin(
        &self,
        _alloc: Global,
        prim: &Step,
        state: &u64,
        number: usize,
    ) -> Result<Run, AllocError> {
        match *prim {
            Step::Solve(ways) => {
                if number == 0 {
                    return Ok(Run::Begun(0, 0, false));
                }
                if number as u64 > *state % 10 {
                    return Ok(Run::Begun(0, 0, false));
                }
                Ok(Run::Begun(*state - 1, ways, false))
            }
            Step::Climb(top) => {
                if *state < top {
                    return Ok(Run::Begun(state.saturating_add(10), 1, false));
                }
                Ok(Run::Begun(0, 0, false))
            }
            Step::Stray => Ok(Run::Begun(0, 0, true)),
        }
    }

    fn next(&self, _alloc: Global, run: &mut Run) -> Result<Option<Event<u64>>, AllocError> {
        match *run {
            Run::Begun(number, left, strays) => {
                *run = Run::Going(number, left, strays);
                Ok(Some(Event::Tick))
            }
            Run::Going(number, left, true) => {
                *run = Run::Going(number, left, false);
                Ok(Some(Event::Outside))
            }
            Run::Going(number, left, false) => {
                if left == 0 {
                    return Ok(None);
                }
                *run = Run::Going(number.saturating_add(10), left - 1, false);
                Ok(Some(Event::Res(number)))
            }
        }
    }

    fn subgoals(&self, state: &u64) -> usize {
        (*state % 10) as usize
    }

    fn same(&self, a: &u64, b: &u64) -> bool {
        *a == *b
    }

    fn measure(&self, state: &u64) -> u64 {
        *state % 10
    }

    fn focus(&self, _alloc: Global, state: &u64, _number: usize) -> Result<u64, AllocError> {
        Ok(*state - *state % 10 + 1)
    }

    fn unfocus(
        &self,
        _alloc: Global,
        state: &u64,
        inner: &u64,
        _number: usize,
    ) -> Result<u64, AllocError> {
        Ok(inner.saturating_add((*state % 10).saturating_sub(1)))
    }

    fn copy(&self, _alloc: Global, state: &u64) -> Result<u64, AllocError> {
        Ok(*state)
    }
}
