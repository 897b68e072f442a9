//! Lemmas that are not proved yet.
use isa_outer::Attributes;
use isa_terms::{Name, Term};

/// A lemma that is begun: the line of its command, its name where it has one, the attributes that act when it is stored, and its proposition.
#[derive(Drop)]
pub struct Lemma {
    pub line: u64,
    pub name: Option<Name>,
    pub attributes: Attributes,
    pub goal: Term,
}
