//! Inner texts: from bytes to a term whose names are not resolved, or to a type, with the first refusal.
#![tactic(auto)]

mod laws;
mod part;
mod reading;
mod refusal;
mod refusing;
mod signature;
mod text;
mod tokens;

pub use laws::{one_reading, reads_phrases};
pub use refusal::{Expected, Refusal};
pub use signature::Signature;
pub use text::{read_raw, read_typ};
