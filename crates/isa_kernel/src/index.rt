//! An index of a long base, so that a join of two does not compare each entry of the one with each of the other.
ghost use Rattle.std.specs.Prelude.{◌≡◌, IfOk, OnOk};
ghost use Rattle.isa_kernel.specs.Axioms.{has_entry};
ghost use Rattle.isa_kernel.specs.Indexes.{place_of, IsIndexed, Notes};

use crate::base::{BaseEntry, has_entry, stands_at};
use indexmap::IndexMap;
use isa_terms::Name;
use std::alloc::{AllocError, Global};

/// The place of an axiom of each name, and of a cite of each number, that is among the entries of a list.
#[derive(Drop)]
pub(crate) struct Index {
    axioms: IndexMap<Name, usize>,
    cites: IndexMap<u64, usize>,
}

impl Index {
    /// The index of the entries.
    pub(crate) fn of(alloc: Global, entries: &[BaseEntry]) -> Result<Index, AllocError>
        ensures { IfOk result (λ i. IsIndexed i.axioms.entries i.cites.entries entries.now) }
    {
        let mut index = Index {
            axioms: IndexMap::new(alloc),
            cites: IndexMap::new(alloc),
        };
        for (place, entry) in entries.iter().enumerate() {
            index.note(entry, place)?;
        }
        Ok(index)
    }

    /// Notes the place of an entry.
    fn note(&mut self, entry: &BaseEntry, place: usize) -> Result<(), AllocError>
        ensures { OnOk result (Notes self.old.axioms.entries self.old.cites.entries self.new.axioms.entries self.new.cites.entries entry.now) }
    {
        match entry {
            BaseEntry::Axiom(named) => {
                self.axioms.insert(named.name.copy()?, place)?;
            }
            BaseEntry::Cite { number, .. } => {
                self.cites.insert(*number, place)?;
            }
        }
        Ok(())
    }

    /// Whether the entry is one of those whose index this is.
    pub(crate) fn has(&self, entries: &[BaseEntry], one: &BaseEntry) -> bool
        requires { IsIndexed self.now.axioms.entries self.now.cites.entries entries.now }
        ensures { result ≡ has_entry entries.now one.now }
    {
        match self.place(one) {
            None => false,
            Some(place) => stands_at(entries, place, one) || has_entry(entries, one),
        }
    }

    /// Where an axiom of the same name, or a cite of the same number, stands.
    fn place(&self, entry: &BaseEntry) -> Option<usize>
        ensures { result ≡ place_of self.now.axioms.entries self.now.cites.entries entry.now }
    {
        match entry {
            BaseEntry::Axiom(named) => self.axioms.get(&named.name).copied(),
            BaseEntry::Cite { number, .. } => self.cites.get(number).copied(),
        }
    }
}
