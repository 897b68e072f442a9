//! Asking a method for its results.
ghost use Rattle.std.specs.Prelude.{◌≡◌, IfOk, true, false};
ghost use Rattle.isa_goal.specs.Counted.{rules_have_counted};
ghost use Rattle.isa_goal.specs.Goals.{has_parameter};
ghost use Rattle.isa_goal.specs.Resolving.{all_first_order};
ghost use Rattle.isa_seq.specs.Asking.{at_end};
ghost use Rattle.isaprove.specs.Asking.{answer_at};
ghost use Rattle.isaprove.specs.declared.session.Tried.TheVariants.{Opening, Matching};

use isa_goal::{Found, How, Mode, Resolve, State};
use isa_kernel::Thms;
use isa_seq::Answer;
use std::alloc::{AllocError, Global};

/// The answer at the end, after so many unifications outside of patterns.
fn no_more(outside: u64) -> Answer<State>
    ensures { result ≡ at_end outside }
{
    if outside == 0 {
        Answer::NoMore
    } else {
        Answer::NoMoreOutside(outside)
    }
}

/// The opening of a lemma gives its state alone.
pub fn ask_opening(alloc: Global, state: &State, rank: u64) -> Result<Answer<State>, AllocError>
    ensures { IfOk result (λ a. a ≡ answer_at Opening state.now rank) }
{
    if rank == 0 {
        Ok(Answer::State(state.copy(alloc)?))
    } else {
        Ok(Answer::NoMore)
    }
}

/// What stands behind `rank` results of matching the rules with the first subgoal. The budget is never spent: the search takes one tick.
pub fn ask_matching(
    alloc: Global,
    rules: &Thms,
    state: &State,
    rank: u64,
) -> Result<Answer<State>, AllocError>
    requires first_order { all_first_order rules.now ≡ true }
    requires uncounted { rules_have_counted rules.now ≡ false }
    requires no_parameter { has_parameter 1 state.now ≡ false }
    ensures { IfOk result (λ a. a ≡ answer_at (Matching rules.now) state.now rank) }
{
    let mut search = Resolve::start(alloc, rules, state, 1, Mode::Intro, How::Match)?;
    let mut left = rank;
    let mut outside = 0u64;
    while let Some(found) = search.next(alloc)? {
        match found {
            Found::Outside => outside = outside.saturating_add(1),
            Found::Res(next) => {
                if left == 0 {
                    return Ok(Answer::State(next));
                }
                left -= 1;
            }
        }
    }
    Ok(no_more(outside))
}
