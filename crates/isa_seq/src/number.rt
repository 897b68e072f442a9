//! Numbers of subgoals.
#![tactic(auto)]

ghost use Rattle.std.specs.Prelude.{◌<◌, ◌≡◌};

/// The number of a subgoal, counted from 1.
#[derive(Clone, Copy, Debug)]
pub struct Number {
    pub value: usize,
    ghost counted: { 0 < value },
}

impl Number {
    /// The number with this value.
    pub fn new(value: usize) -> Number
        requires { 0 < value }
        ensures { result.value ≡ value }
    {
        Number { value }
    }
}
