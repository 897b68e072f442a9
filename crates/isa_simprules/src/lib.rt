//! The rewrite rules of facts, and congruence rules.
#![tactic(auto)]

mod apart;
mod congruence;
mod laws;
mod numbers;
mod opening;
mod renaming;
mod rewrite_rules;
mod roles;
mod rule;

pub use congruence::{Cong, CongPremise, are_distinct_unknowns, cong_of, is_constant};
pub use laws::{
    numbers_are_least, opened_has_no_quantifier, rules_are_computed, rules_are_equations,
};
pub use rewrite_rules::rules_of;
pub use rule::{Rule, rule_of, rules_in};
