//! A quick test for terms that no instance makes equal.
#![tactic(auto)]

mod differing;
mod laws;

pub use differing::differ;
pub use laws::{differing_have_no_match, differing_have_no_unifier, liftings_differ};
