//! The nodes of a net.

use crate::rank::Rank;
use crate::symbol::Symbol;
use std::collections::BTreeMap;

/// A prefix of words: where each symbol that may follow leads to, and the ranks whose whole word it is.
#[derive(Drop)]
pub struct Node {
    pub edges: BTreeMap<Symbol, usize>,
    pub ranks: Vec<Rank>,
}
