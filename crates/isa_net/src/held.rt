//! A key with its value, as a net holds them.

ghost use Rattle.std.specs.Prelude.{◌≡◌, IfOk, IfErr};
ghost use Rattle.isa_net.specs.Words.{word};
ghost use Rattle.isa_net.specs.Nets.{Entry, entry_code};

use crate::symbol::Symbol;
use crate::word::word_of;
use isa_terms::Term;
use std::alloc::Global;
use std::marker::Model;

/// A key with its value, and the key's word.
#[derive(Drop)]
pub struct Held<V> {
    key: Term,
    spelled: Vec<Symbol>,
    value: V,
}

impl<V> Model for Held<V> {
    ghost Value = { Entry V };

    ghost coded = { entry_code V.code };

    ghost view = { λ h. record { key = h.key; value = h.value } };

    ghost invariant = { λ h. h.spelled.items ≡ word h.key };
}

impl<V: Drop> Held<V> {
    /// The key with its value; where memory is wanting, the value comes back.
    pub fn new(alloc: Global, key: &Term, value: V) -> Result<Held<V>, V>
        ensures ok { IfOk result (λ held. held ≡ record { key = key.now; value = value }) }
        ensures err { IfErr result (λ back. back ≡ value) }
    {
        let Ok(spelled) = word_of(alloc, key) else {
            return Err(value);
        };
        let Ok(key) = key.copy() else {
            return Err(value);
        };
        Ok(Held {
            key,
            spelled,
            value,
        })
    }

    /// The word of the key.
    pub fn word(&self) -> &[Symbol]
        ensures { result.now ≡ word self.now.key }
    {
        self.spelled.as_slice()
    }

    pub fn value(&self) -> &V
        ensures { result.now ≡ self.now.value }
    {
        &self.value
    }

    pub fn into_value(self) -> V
        ensures { result ≡ self.value }
    {
        let Held {
            key: _,
            spelled: _,
            value,
        } = self;
        value
    }
}
