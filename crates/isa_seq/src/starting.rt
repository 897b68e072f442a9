//! How each kind of method expression starts on a state, at a number: the frames that it pushes.
#![tactic(auto)]

ghost use Rattle.std.specs.Prelude.{IfOk};
ghost use Rattle.isa_seq.specs.Steps.{StartsNode};

use crate::event::Event;
use crate::frame::{Frame, Place};
use crate::number::Number;
use crate::prims::Prims;
use crate::queue::Queue;
use crate::step::Frames;
use crate::tac::{Tac, TacNode};
use std::alloc::{AllocError, Global};

/// The state itself if it has no subgoals.
pub(crate) fn start_solved<R: Prims>(
    prims: &R,
    frames: &mut Frames<R>,
    state: R::State,
    number: usize,
) -> Result<Option<Event<R::State>>, AllocError>
    ensures { IfOk result (StartsNode (R.meaning prims.now) TacNode.Solved state number frames.old.items frames.new.items) }
{
    if prims.subgoals(&state) == 0 {
        return Ok(Some(Event::Res(state)));
    }
    Ok(None)
}

/// A run of a primitive.
pub(crate) fn start_goal<R: Prims>(
    alloc: Global,
    prims: &R,
    frames: &mut Frames<R>,
    prim: &R::Prim,
    state: R::State,
    number: usize,
) -> Result<Option<Event<R::State>>, AllocError>
    ensures { IfOk result (StartsNode (R.meaning prims.now) (TacNode.Goal prim.now) state number frames.old.items frames.new.items) }
{
    let run = prims.begin(alloc, prim, &state, number)?;
    frames.push(Frame::Running(run))?;
    Ok(None)
}

/// The second on each result of the first.
pub(crate) fn start_then<R: Prims>(
    _prims: &R,
    frames: &mut Frames<R>,
    first: &Tac<R::Prim>,
    next: &Tac<R::Prim>,
    state: R::State,
    number: usize,
) -> Result<Option<Event<R::State>>, AllocError>
    ensures { IfOk result (StartsNode (R.meaning _prims.now) (TacNode.Then first.now next.now) state number frames.old.items frames.new.items) }
{
    frames.push(Frame::Each(next.at(number)?))?;
    frames.push(Frame::Call(first.at(number)?, state))?;
    Ok(None)
}

/// The first, and the second behind it as the alternative.
pub(crate) fn start_or_else<R: Prims>(
    alloc: Global,
    prims: &R,
    frames: &mut Frames<R>,
    first: &Tac<R::Prim>,
    other: &Tac<R::Prim>,
    state: R::State,
    number: usize,
) -> Result<Option<Event<R::State>>, AllocError>
    ensures { IfOk result (StartsNode (R.meaning prims.now) (TacNode.OrElse first.now other.now) state number frames.old.items frames.new.items) }
{
    let copy = prims.copy(alloc, &state)?;
    frames.push(Frame::Else(other.at(number)?, copy))?;
    frames.push(Frame::Call(first.at(number)?, state))?;
    Ok(None)
}

/// The first, and the second behind it.
pub(crate) fn start_append<R: Prims>(
    alloc: Global,
    prims: &R,
    frames: &mut Frames<R>,
    first: &Tac<R::Prim>,
    other: &Tac<R::Prim>,
    state: R::State,
    number: usize,
) -> Result<Option<Event<R::State>>, AllocError>
    ensures { IfOk result (StartsNode (R.meaning prims.now) (TacNode.Append first.now other.now) state number frames.old.items frames.new.items) }
{
    let copy = prims.copy(alloc, &state)?;
    frames.push(Frame::Call(other.at(number)?, copy))?;
    frames.push(Frame::Call(first.at(number)?, state))?;
    Ok(None)
}

/// The expression, and the state itself behind it as the alternative.
pub(crate) fn start_try<R: Prims>(
    alloc: Global,
    prims: &R,
    frames: &mut Frames<R>,
    body: &Tac<R::Prim>,
    state: R::State,
    number: usize,
) -> Result<Option<Event<R::State>>, AllocError>
    ensures { IfOk result (StartsNode (R.meaning prims.now) (TacNode.Try body.now) state number frames.old.items frames.new.items) }
{
    let copy = prims.copy(alloc, &state)?;
    frames.push(Frame::Else(body.to(Place::Downward(0))?, copy))?;
    frames.push(Frame::Call(body.at(number)?, state))?;
    Ok(None)
}

/// The expression at the numbers from 1 up, as long as there is no result.
pub(crate) fn start_first_goal<R: Prims>(
    prims: &R,
    frames: &mut Frames<R>,
    body: &Tac<R::Prim>,
    state: R::State,
    number: usize,
) -> Result<Option<Event<R::State>>, AllocError>
    ensures { IfOk result (StartsNode (R.meaning prims.now) (TacNode.FirstGoal body.now) state number frames.old.items frames.new.items) }
{
    let last = prims.subgoals(&state);
    frames.push(Frame::Call(body.to(Place::Upward(1, last))?, state))?;
    Ok(None)
}

/// The expression at each number, from the last down.
pub(crate) fn start_all_goals<R: Prims>(
    prims: &R,
    frames: &mut Frames<R>,
    body: &Tac<R::Prim>,
    state: R::State,
    number: usize,
) -> Result<Option<Event<R::State>>, AllocError>
    ensures { IfOk result (StartsNode (R.meaning prims.now) (TacNode.AllGoals body.now) state number frames.old.items frames.new.items) }
{
    let last = prims.subgoals(&state);
    frames.push(Frame::Call(body.to(Place::Downward(last))?, state))?;
    Ok(None)
}

/// Rounds of the expression's first results.
pub(crate) fn start_repeat_determ<R: Prims>(
    alloc: Global,
    _prims: &R,
    frames: &mut Frames<R>,
    body: &Tac<R::Prim>,
    state: R::State,
    number: usize,
) -> Result<Option<Event<R::State>>, AllocError>
    ensures { IfOk result (StartsNode (R.meaning _prims.now) (TacNode.RepeatDeterm body.now) state number frames.old.items frames.new.items) }
{
    let once = Tac::new(alloc, TacNode::Determ(body.copy()?))?;
    frames.push(Frame::Call(once.to(Place::Rounds(number))?, state))?;
    Ok(None)
}

/// The expression, under a frame that ends it after its first result.
pub(crate) fn start_determ<R: Prims>(
    _prims: &R,
    frames: &mut Frames<R>,
    body: &Tac<R::Prim>,
    state: R::State,
    number: usize,
) -> Result<Option<Event<R::State>>, AllocError>
    ensures { IfOk result (StartsNode (R.meaning _prims.now) (TacNode.Determ body.now) state number frames.old.items frames.new.items) }
{
    frames.push(Frame::First)?;
    frames.push(Frame::Call(body.at(number)?, state))?;
    Ok(None)
}

/// A search in which the state alone waits.
pub(crate) fn start_best_first<R: Prims>(
    alloc: Global,
    prims: &R,
    frames: &mut Frames<R>,
    body: &Tac<R::Prim>,
    state: R::State,
    number: usize,
) -> Result<Option<Event<R::State>>, AllocError>
    ensures { IfOk result (StartsNode (R.meaning prims.now) (TacNode.BestFirst body.now) state number frames.old.items frames.new.items) }
{
    let mut queue = Queue::new(alloc);
    queue.push(prims.measure(&state), state)?;
    frames.push(Frame::Best(body.copy()?, number, queue))?;
    Ok(None)
}

/// The expression, under a frame that drops what is the same as the state.
pub(crate) fn start_changed<R: Prims>(
    alloc: Global,
    prims: &R,
    frames: &mut Frames<R>,
    body: &Tac<R::Prim>,
    state: R::State,
    number: usize,
) -> Result<Option<Event<R::State>>, AllocError>
    ensures { IfOk result (StartsNode (R.meaning prims.now) (TacNode.Changed body.now) state number frames.old.items frames.new.items) }
{
    let copy = prims.copy(alloc, &state)?;
    frames.push(Frame::Unlike(copy))?;
    frames.push(Frame::Call(body.at(number)?, state))?;
    Ok(None)
}

/// The expression on the subgoal alone, under a frame that puts it back. Nothing if there is no such subgoal.
pub(crate) fn start_select<R: Prims>(
    alloc: Global,
    prims: &R,
    frames: &mut Frames<R>,
    body: &Tac<R::Prim>,
    state: R::State,
    number: usize,
) -> Result<Option<Event<R::State>>, AllocError>
    ensures { IfOk result (StartsNode (R.meaning prims.now) (TacNode.Select body.now) state number frames.old.items frames.new.items) }
{
    if number == 0 {
        return Ok(None);
    }
    let last = prims.subgoals(&state);
    if number > last {
        return Ok(None);
    }
    let focused = prims.focus(alloc, &state, number)?;
    frames.push(Frame::PutBack(state, Number::new(number)))?;
    frames.push(Frame::Call(body.at(1)?, focused))?;
    Ok(None)
}
