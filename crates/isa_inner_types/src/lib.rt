//! Types in inner text: how tokens are read as a type, with the first refusal.
#![tactic(auto)]

mod laws;
mod reading;
mod token;

pub use laws::{no_type_dead_end, one_type_outcome, reads_types};
pub use reading::{Fail, read_type, read_whole_type};
pub use token::{TermToken, TextToken, TypeRefusal, TypeWanted};
