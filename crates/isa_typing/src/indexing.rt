//! An index of entries by their variables.

ghost use Rattle.std.specs.Prelude.{IfOk, OnOk};
ghost use Rattle.isa_typing.specs.Found.{found_in};
ghost use Rattle.isa_typing.specs.Indexes.{IndexesEntries, PutsFirst};

use crate::solving::bind;
use indexmap::IndexMap;
use isa_terms::{Name, Typ, TypeEntry};
use std::alloc::{AllocError, Global};

/// Puts the entry, unless its variable has one.
#[tactic(auto, using(crate::proofs::Indexed::put_if_there, crate::proofs::Indexed::put_if_new))]
fn put_first(index: &mut IndexMap<(Name, u32), Typ>, entry: &TypeEntry) -> Result<(), AllocError>
    ensures { OnOk result (PutsFirst (found_in index.old.entries) entry.now.name entry.now.number entry.now.typ (found_in index.new.entries)) }
{
    let variable = entry.name.copy()?;
    if index.contains_key(&(variable, entry.number)) {
        return Ok(());
    }
    bind(index, &entry.name, entry.number, &entry.typ)?;
    Ok(())
}

/// The entries by their variables, the first one for each.
#[tactic(auto, using(crate::proofs::Indexed::first_put))]
pub(crate) fn index_of(
    alloc: Global,
    entries: &[TypeEntry],
) -> Result<IndexMap<(Name, u32), Typ>, AllocError>
    ensures { IfOk result (λ index. IndexesEntries (found_in index.entries) entries.now) }
{
    let mut index: IndexMap<(Name, u32), Typ> = IndexMap::new(alloc);
    for entry in entries {
        put_first(&mut index, entry)?;
    }
    Ok(index)
}
