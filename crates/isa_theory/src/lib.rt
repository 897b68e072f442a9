//! The context of a theory: what its commands declared, and what the next one does to it.
#![tactic(auto)]

mod applying;
mod attributes;
mod context;
mod declared;
mod general;
mod kinds;
mod laws;
mod lemma;
mod method_facts;
mod options;
mod roles;
mod storing;

pub use applying::line_of;
pub use context::Context;
pub use declared::Declared;
pub use laws::{commands_have_one_answer, texts_begin_one_lemma};
pub use lemma::Lemma;
pub use options::Options;
