//! What a rule is used for, and what it gives.
use crate::state::State;

/// How a rule is used at a subgoal.
#[derive(Clone, Copy)]
pub enum Mode {
    /// Its conclusion with that of the subgoal.
    Intro,
    /// Its conclusion with that of the subgoal, and its first premise with an assumption, which goes.
    Elim,
    /// Its first premise with an assumption, which goes; its conclusion is a new assumption.
    Dest,
    /// The same, but the assumption stays.
    Forward,
    /// An assumption with the conclusion of the subgoal, without a rule.
    Assume,
}

/// How unknowns are found.
#[derive(Clone, Copy)]
pub enum How {
    /// Those of the rule and of the state.
    Unify,
    /// Those of the rule alone.
    Match,
}

/// What a choice gives: a state, or that it is outside of what is tried.
#[derive(Drop)]
pub enum Found {
    Outside,
    Res(State),
}
