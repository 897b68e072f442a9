//! Laws of traces, of the combinators and of machines. These functions do nothing: their contracts are the laws.
#![tactic(auto)]

ghost use Rattle.isa_seq.specs.Laws.{AreTraces, GiveTraces, ResumedGivesTheRest, ShowsBeginnings, ThenIsAssociative};

use crate::prims::Prims;

/// What the combinators make of traces are traces.
pub fn combinators_give_traces<S>()
    ensures { GiveTraces S }
{}

/// What expressions and searches give are traces.
pub fn expressions_give_traces<R: Prims>(_prims: &R)
    ensures { AreTraces (R.meaning _prims.now).primitives }
{}

/// What is seen of a trace with fewer ticks is the beginning of what is seen with more.
pub fn fewer_ticks_show_the_beginning<R: Prims>(_prims: &R)
    ensures { ShowsBeginnings (R.meaning _prims.now).primitives }
{}

/// Of three expressions, one after another, it doesn't matter which two are taken together.
pub fn then_is_associative<R: Prims>(_prims: &R)
    ensures { ThenIsAssociative (R.meaning _prims.now).primitives }
{}

/// A machine that is stopped after any event and resumed gives just the rest.
pub fn resumed_gives_the_rest<S>()
    ensures { ResumedGivesTheRest S }
{}
