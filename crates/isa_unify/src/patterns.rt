//! Unknowns, and unknowns on bound variables.

use crate::numbers::Numbers;
use isa_terms::{Name, Typ};

/// An unknown: its name, its number and its type.
#[derive(Drop)]
pub struct Unknown<'t> {
    pub name: &'t Name,
    pub number: u32,
    pub typ: &'t Typ,
}

/// An unknown with the numbers of the bound variables to which it is applied.
#[derive(Drop)]
pub struct Pattern<'t> {
    pub unknown: Unknown<'t>,
    pub variables: Numbers,
}
