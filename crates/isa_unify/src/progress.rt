use crate::equation::{Binders, Equations};
use crate::late::Late;
use crate::numbers::Numbers;
use isa_terms::{Name, TermEntries, Typ, TypeEntries};

/// What comes of an equation, where no unknown is solved.
#[derive(Drop)]
pub enum Parts {
    /// A side has an unknown at its head.
    Flexible,
    /// The heads, or the numbers of arguments, differ.
    Clash,
    /// The equations of the parts.
    Into(Equations),
    /// The same, where the types of the heads have to agree.
    Heads(Typ, Typ, Equations),
}

/// What the first place that decides says of a term for an unknown.
#[derive(Drop)]
pub enum Verdict {
    /// No place decides.
    Fine,
    /// No instance of the unknown equals the term.
    Refused,
    /// A place is no pattern.
    Strays,
    /// An unknown under binders, with its variables and those that it keeps.
    Prunes(Name, u32, Typ, Binders, Numbers, Numbers),
}

/// The equations that are left, what the type unknowns and the unknowns that are asked for have
/// become, the number of the next new unknown, and how many may still come.
#[derive(Drop)]
pub struct State {
    pub equations: Equations,
    pub types: TypeEntries,
    pub terms: TermEntries,
    pub next: u32,
    pub left: u32,
}

/// The end of a unification.
#[derive(Drop)]
pub enum Answer {
    /// The types and terms, and the number of the next new unknown.
    Yes(TypeEntries, TermEntries, u32),
    No,
    Outside,
}

/// What a step leads to.
#[derive(Drop)]
pub enum Progress {
    Going(Late),
    Ended(Answer),
}

/// What a step of the walk that looks for clashes leads to.
#[derive(Drop)]
pub enum Walk {
    Goes(Equations),
    Ends(bool),
}
