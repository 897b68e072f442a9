//! Principal types of the terms that texts give.
#![tactic(auto)]

mod error;
mod indexing;
mod inferred;
mod laws;
mod marks;
mod naming;
mod open_types;
mod principal;
mod resolving;
mod solving;
mod text_names;

pub use error::InferError;
pub use isa_raw::{RawNode, RawTerm};
pub use laws::{principal_terms_are_typed, unifiers_are_principal};
pub use principal::infer;
