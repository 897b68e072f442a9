//! Subgoals: propositions as premises and a conclusion, the theorems that have this form, and the inferences on them.
#![tactic(auto)]

mod elimination;
mod laws;
mod lift;
mod lifting;
mod parts;
mod premises;
mod renumbering;
mod reshaping;
mod shape;
mod steps;

pub use elimination::make_elimination;
pub use isa_kernel::make_implies;
pub use laws::{
    lifting_without_parameters, parts_make_the_subgoal, rules_stay_derived, subgoals_are_formed,
};
pub use lift::{Parameter, lifted};
pub use lifting::lift_rule;
pub use parts::{SubgoalParts, split_subgoal};
pub use premises::{Premises, conclusion, is_all, split_all_premises, split_leading, split_rule};
pub use renumbering::renumber_rule;
pub use reshaping::reshape;
pub use steps::{cut, raise_rule, rotate, spliced};
