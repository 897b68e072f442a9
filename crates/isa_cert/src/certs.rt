//! What a text of certificates proves.
ghost use Rattle.std.specs.Prelude.{◌≡◌, ◌<◌, [], ◌∷◌, ◌++◌, length, slice_get, Some, OnOk};

use isa_kernel::Axioms;
use isa_terms::{Name, Term};
use std::alloc::{AllocError, Global};
use std::marker::Model;

/// A theorem that is accepted.
#[derive(Drop)]
pub struct Accepted {
    /// `-` where it has none.
    pub name: Name,
    /// The axioms that it rests on, by the bytes of their names.
    pub axioms: Axioms,
    /// What it states, without hypotheses.
    pub prop: Term,
}

/// The accepted theorems of a text, in their order.
#[derive(Drop)]
pub struct Certs {
    items: Vec<Accepted>,
}

impl Model for Certs {
    ghost use Rattle.std.specs.Prelude.{List};
    ghost use Rattle.isa_cert.specs.declared.certs.Accepted.{Accepted};
    ghost use Rattle.std.specs.Coded.{coded_list};
    ghost use Rattle.isa_cert.specs.Codes.{accepted_code};

    ghost Value = { List Accepted };

    ghost coded = { coded_list accepted_code };

    ghost view = { λ a. a.items.items };
}

impl Certs {
    /// No theorem, which takes no memory.
    pub fn new(alloc: Global) -> Certs
        ensures { result ≡ [] }
    {
        Certs {
            items: Vec::new(alloc),
        }
    }

    /// Puts a theorem last.
    pub(crate) fn push(&mut self, item: Accepted) -> Result<(), AllocError>
        ensures { OnOk result (self.new ≡ self.old ++ item ∷ []) }
    {
        self.items.push(item)?;
        Ok(())
    }

    /// How many theorems there are.
    pub fn len(&self) -> usize
        ensures { result ≡ length self.now }
    {
        self.items.len()
    }

    /// The theorems, in order.
    pub fn as_slice(&self) -> &[Accepted]
        ensures { result.now ≡ self.now }
    {
        self.items.as_slice()
    }
}
