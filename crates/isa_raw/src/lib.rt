//! Terms as texts give them: names that are not resolved, and types only where a text writes them.
#![tactic(auto)]

mod raw;

pub use raw::{RawNode, RawTerm};
