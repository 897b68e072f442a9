//! The bytes of an inner text, cut into words: names, variables, and the signs of a table, each the longest that may stand.
#![tactic(auto)]

mod cutting;
mod fixed;
mod names;
mod sign;

pub use cutting::{Kind, Word, words};
pub use fixed::declare_fixed;
pub use sign::{Sign, Signs, TypeMark};
