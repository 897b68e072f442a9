//! Simplification: the definition, and its laws.
#![tactic(auto)]

mod laws;

pub use laws::{
    premises_are_tried_in_turn, procedure_rows_are_computed, rows_are_computed,
    rules_are_tried_in_turn, simplification_goes_by_steps, ticks_are_counted,
};
