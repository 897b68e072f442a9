//! How a look-up takes the unknowns of its term.

/// How a look-up takes the unknowns of its term.
#[derive(Clone, Copy, Drop)]
pub enum Mode {
    /// An unknown of the term may become anything.
    Unifiable,
    /// An unknown of the term stays what it is.
    Matching,
}
