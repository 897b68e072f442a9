//! Introduction by rules as primitives of method expressions: what a machine answers follows from the state that it began with.
#![tactic(auto)]

mod introductions;
mod run;
mod searching;

pub use introductions::Introductions;
pub use run::Run;
pub use searching::depth_first;
