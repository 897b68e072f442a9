//! Printing: the text of terms, states and theorems.
#![tactic(auto)]

mod text;

pub use text::{state_text, theorem_text};
