//! Simpsets: the lists of rules by which the simplifier works.
#![tactic(auto)]

mod congs;
mod fail;
mod procs;
mod refusals;
mod rules;
mod simpset;

pub use congs::Congs;
pub use fail::SimpFail;
pub use procs::{Proc, ProcRule, ProcRules};
pub use rules::Rules;
pub use simpset::Simpset;
