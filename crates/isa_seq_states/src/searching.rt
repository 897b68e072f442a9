//! A search by introductions.

ghost use Rattle.std.specs.Prelude.{◌≡◌, IfOk, [], ◌∷◌};
ghost use Rattle.isa_seq_states.specs.Introductions.{base_of_all, FollowsIfAnswered, depth_first_answer};

use crate::introductions::Introductions;
use isa_goal::State;
use isa_kernel::{Thms, are_derived};
use isa_seq::{Answer, Machine, Tac, TacNode, ask};
use std::alloc::{AllocError, Global};

/// The first solved state that introductions by the rules lead to from a state, depth first, if fewer than `budget` ticks stand
/// before it: it follows from the state by the axioms of the rules.
pub fn depth_first(
    alloc: Global,
    rules: Thms,
    state: &State,
    budget: u64,
) -> Result<Answer<State>, AllocError>
    ensures answer { IfOk result (λ a. a ≡ depth_first_answer rules state.now budget) }
    ensures follows { IfOk result (FollowsIfAnswered (base_of_all (rules ∷ [])) state.now) }
{
    are_derived(rules.as_slice());
    state.is_standing();
    state.is_normal();
    let introduction = Tac::new(alloc, TacNode::Goal(rules))?;
    let search = Tac::new(alloc, TacNode::DepthFirst(introduction))?;
    let mut machine = Machine::start(alloc, &Introductions, &search, state)?;
    ask(alloc, &Introductions, &mut machine, budget)
}
