//! Primitives on numbers, to try the machine with.
#![tactic(auto)]

mod prims;
mod pulled;
mod run;

pub use prims::{Numbers, Step};
pub use pulled::events;
pub use run::Run;

#[cfg(test)]
mod tests;
