//! Counts of steps.

ghost use Rattle.std.specs.Prelude.{◌≡◌};

/// A count of visited nodes, which stops at the greatest number.
#[derive(Drop)]
pub struct Steps {
    pub count: u64,
}

impl Steps {
    /// No steps.
    pub fn new() -> Steps
        ensures { result.count ≡ 0 }
    {
        Steps { count: 0 }
    }
}
