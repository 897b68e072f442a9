//! The checker of certificates over files and sinks.
#![tactic(auto)]

mod line;
mod output;
mod status;
mod top;

pub use top::check_run;
