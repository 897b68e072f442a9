//! Types, terms and theorems written as words, for the tables of tests, and what is printed of a row. Nothing is claimed of
//! what is read: a row that is read otherwise than it is meant differs from what it tells.
#![tactic(auto)]

mod answer;
mod bench;
mod fault;
mod rule;
mod stack;
mod symbols;
mod terms;
mod types;
mod words;

pub use answer::print_answer;
pub use bench::Bench;
pub use fault::Fault;
pub use symbols::Symbols;
pub use types::typ;
pub use words::{is_word, number, split};
