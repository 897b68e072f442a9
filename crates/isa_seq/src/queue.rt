//! The states that wait in a search.
#![tactic(auto)]

ghost use Rattle.std.specs.Prelude.{◌≡◌, ◌<◌, ◌++◌, ◌∷◌, [], OnOk, IfOk, IfSome, IfNone, All, None};
ghost use Rattle.std.specs.BTreeMap.{keys};
ghost use Rattle.isa_seq.specs.Searches.{has_same};
ghost use Rattle.isa_seq.specs.Queues.{waiting, of_measure, enqueued, Takes};

use crate::prims::Prims;
use std::alloc::{AllocError, Global};
use std::collections::BTreeMap;

/// States by measure and age. Of equal measures the oldest comes first.
#[derive(Drop)]
pub struct Queue<S> {
    pub states: BTreeMap<(u64, u64), S>,
    pub age: u64,
    ghost older: { All (λ k. k.1 < age) (keys states) },
}

impl<S: Drop> Queue<S> {
    /// The queue without states.
    pub fn new(alloc: Global) -> Queue<S>
        ensures { waiting result.states.entries ≡ [] }
    {
        Queue {
            states: BTreeMap::new(alloc),
            age: 0,
        }
    }

    /// Adds a state, the youngest from now on.
    pub fn push(&mut self, measure: u64, state: S) -> Result<(), AllocError>
        ensures { OnOk result (waiting self.new.states.entries ≡ waiting self.old.states.entries ++ (measure, state) ∷ []) }
    {
        let age = self.age;
        let Some(next) = age.checked_add(1) else {
            return Err(AllocError);
        };
        self.age = next;
        self.states.insert((measure, age), state)?;
        Ok(())
    }

    /// Takes out the state of the least measure, of equals the oldest.
    pub fn pop(&mut self) -> Option<S>
        ensures some { IfSome result (λ state. Takes self.old.states.entries state self.new.states.entries) }
        ensures none { IfNone result (waiting self.old.states.entries ≡ []) }
    {
        let (_, state) = self.states.pop_first()?;
        Some(state)
    }
}

/// Whether a state of this measure is the same as one that waits. Only those of its measure are asked: no other one can be.
fn holds<R: Prims>(prims: &R, queue: &Queue<R::State>, measure: u64, state: &R::State) -> bool
    ensures { result ≡ has_same (R.meaning prims.now).primitives.same state.now (of_measure measure (waiting queue.now.states.entries)) }
{
    for (_, other) in queue.states.range((measure, 0)..(measure, queue.age)) {
        if prims.same(state, other) {
            return true;
        }
    }
    false
}

/// Adds a state, but not one that is the same as one that waits.
pub fn offer<R: Prims>(
    prims: &R,
    queue: &mut Queue<R::State>,
    state: R::State,
) -> Result<(), AllocError>
    ensures { let m = (R.meaning prims.now).primitives in OnOk result (waiting queue.new.states.entries ≡ enqueued m (waiting queue.old.states.entries) (state ∷ [])) }
{
    let measure = prims.measure(&state);
    if holds(prims, queue, measure, &state) {
        return Ok(());
    }
    queue.push(measure, state)
}
