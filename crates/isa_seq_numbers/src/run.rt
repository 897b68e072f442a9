//! A run of a primitive on numbers.
#![tactic(auto)]

/// What is left of a run: so many results from this number on, each ten more than the one before, and perhaps an `Outside` first.
#[derive(Clone, Copy, Debug)]
pub enum Run {
    /// Tick comes before.
    Begun(u64, usize, bool),
    /// Tick has come.
    Going(u64, usize, bool),
}
