//! Facts that are declared to the simplifier, the classical reasoner or the logic.
use isa_kernel::Thm;
use isa_outer::Attribute;

/// A fact's theorem, with the attribute by which it was declared.
#[derive(Drop)]
pub struct Declared {
    pub attribute: Attribute,
    pub thm: Thm,
}
