//! The inner syntax: what a text is read under, and the proposition or the type that it tells, or its first refusal.
#![tactic(auto)]

mod laws;
mod notation;
mod pure;
mod reading;
mod refusal;
mod syntax;

pub use laws::{texts_tell_one_thing, told_props_are_typed, undoing_takes_back};
pub use reading::{read_prop, read_type};
pub use syntax::{Mark, Syntax};
