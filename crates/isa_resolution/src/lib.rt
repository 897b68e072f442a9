//! Resolution: rules composed with rules.
#![tactic(auto)]

mod compose;
mod places;
mod ready;
mod stating;
mod unifiers;

pub use compose::compose_rules;
