//! Terms as a text gives them.

ghost use Rattle.std.specs.Prelude.{◌≡◌, IfOk};
ghost use Rattle.isa_raw.specs.RawLayers.{raw_of};

use isa_terms::{Name, Typ};
use std::alloc::{AllocError, Global};
use std::marker::Model;

/// One level of a raw term.
#[cycle(raw)]
#[derive(Drop)]
pub enum RawNode {
    /// A bound variable, else a constant, else a free variable.
    Name(Name),
    /// The unknown of that name and number 0.
    Unknown(Name),
    /// A constant that notation stands for.
    Constant(Name),
    /// A term of the given type.
    Typed(RawTerm, Typ),
    /// An abstraction over the name, with the type of the variable where it is given.
    Abs(Name, Option<Typ>, RawTerm),
    App(RawTerm, RawTerm),
}

/// A term whose names are not resolved, with types only where the text gives them.
#[cycle(raw)]
#[derive(Drop)]
pub struct RawTerm {
    node: Box<RawNode>,
}

impl Model for RawTerm {
    ghost use Rattle.isa_raw.specs.RawTerms.{Raw, raw_size};
    ghost use Rattle.isa_raw.specs.RawCodes.{coded_raw};

    ghost Value = { Raw };

    ghost coded = { coded_raw };

    ghost use Rattle.isa_raw.specs.RawLayers.{raw_of};

    ghost view = { λ a. raw_of a.node.value };

    ghost size = { raw_size };

    ghost use Rattle.isa_raw.specs.RawFalls.{raw_falls};

    ghost size_decreases = { λ a h. raw_falls a.node.value };
}

impl RawTerm {
    pub fn new(alloc: Global, node: RawNode) -> Result<RawTerm, AllocError>
        ensures { IfOk result (λ r. r ≡ raw_of node) }
    {
        Ok(RawTerm {
            node: Box::new(alloc, node)?,
        })
    }

    pub fn view(&self) -> &RawNode
        ensures { raw_of result.now ≡ self.now }
    {
        self.node.as_ref()
    }
}
