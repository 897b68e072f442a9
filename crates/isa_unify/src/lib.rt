//! Unification of types, matching of patterns, and unification of patterns.
#![tactic(auto)]

mod abstractions;
mod asking;
mod binders;
mod clashing;
mod constants;
mod equation;
mod filling;
mod fresh;
mod late;
mod laws;
mod matching;
mod numbers;
mod parts;
mod patterns;
mod places;
mod progress;
mod spines;
mod steps;
mod types;
mod unification;

pub use constants::constants_of;
pub use fresh::Fresh;
pub use laws::{
    clash_has_no_match, clashes_are_found, liftings_clash, no_is_right, patterns_are_inside,
    unification_ends, yes_goes_on, yes_is_right,
};
pub use matching::{match_pattern, match_patterns, match_patterns_from};
pub use types::{TypePair, unify_type_pairs, unify_types};
pub use unification::{TermPair, Unified, unify, unify_pairs};
