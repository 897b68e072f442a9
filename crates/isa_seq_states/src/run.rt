//! A run of an introduction.

use isa_goal::Resolve;

/// What is left of a run: Tick where it hasn't come, and then what the search still gives, if there is one.
#[derive(Drop)]
pub struct Run {
    pub ticked: bool,
    pub search: Option<Resolve>,
}
