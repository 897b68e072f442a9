//! The instance that a line gives by pairs.
ghost use Rattle.std.specs.Prelude.{◌≡◌, OnOk, is_some};
ghost use Rattle.isa_terms.specs.Instance.{find_type, find_term};
ghost use Rattle.isa_cert.specs.Checking.{all_typed, type_pair, term_pair, type_entries, term_entries, terms_of};
ghost use Rattle.isa_cert.specs.Answers.{Becomes, Checks};

use crate::fail::LineFail;
use crate::inferring::check_typed;
use crate::numbers::Pairs;
use crate::table::Table;
use isa_terms::{Inst, Name, TermEntry, TermNode, Typ, TypNode, TypeEntry, find_term, find_type};
use std::alloc::Global;

/// Whether the type unknown has a type.
fn has_type(name: &Name, number: u32, types: &[TypeEntry]) -> bool
    ensures { result ≡ is_some (find_type name.now number types.now) }
{
    find_type(name, number, types).is_some()
}

/// Whether the unknown has a term.
fn has_term(name: &Name, number: u32, typ: &Typ, terms: &[TermEntry]) -> bool
    ensures { result ≡ is_some (find_term name.now number typ.now terms.now) }
{
    find_term(name, number, typ, terms).is_some()
}

/// Puts a type for a type unknown that has none yet.
fn put_type(
    alloc: Global,
    table: &Table,
    unknown: u32,
    typ: u32,
    inst: &mut Inst,
) -> Result<(), LineFail>
    ensures types { Becomes result inst.new.types (type_pair table.now inst.old.types (unknown, typ)) }
    ensures terms { OnOk result (inst.new.terms ≡ inst.old.terms) }
{
    let unknown = table.typ(unknown)?;
    let typ = table.typ(typ)?;
    let TypNode::Unknown(name, number) = unknown.view() else {
        return Err(LineFail::Form);
    };
    if has_type(name, *number, inst.types().as_slice()) {
        return Err(LineFail::Form);
    }
    let name = name.copy()?;
    let value = typ.copy()?;
    inst.put_type(alloc, name, *number, value)?;
    Ok(())
}

/// Puts a term for an unknown that has none yet.
fn put_term(
    alloc: Global,
    table: &Table,
    unknown: u32,
    term: u32,
    inst: &mut Inst,
) -> Result<(), LineFail>
    ensures types { OnOk result (inst.new.types ≡ inst.old.types) }
    ensures terms { Becomes result inst.new.terms (term_pair table.now inst.old.terms (unknown, term)) }
{
    let unknown = table.term(unknown)?;
    let term = table.term(term)?;
    let TermNode::Unknown(name, number, typ) = unknown.view() else {
        return Err(LineFail::Form);
    };
    if has_term(name, *number, typ, inst.terms().as_slice()) {
        return Err(LineFail::Form);
    }
    let name = name.copy()?;
    let at = typ.copy()?;
    let value = term.copy()?;
    inst.put_term(alloc, name, *number, at, value)?;
    Ok(())
}

/// Puts the types of the pairs.
pub(crate) fn put_types(
    alloc: Global,
    table: &Table,
    pairs: &Pairs,
    inst: &mut Inst,
) -> Result<(), LineFail>
    ensures types { Becomes result inst.new.types (type_entries table.now inst.old.types pairs.now) }
    ensures terms { OnOk result (inst.new.terms ≡ inst.old.terms) }
{
    for (unknown, typ) in pairs.as_slice() {
        put_type(alloc, table, *unknown, *typ, inst)?;
    }
    Ok(())
}

/// Puts the terms of the pairs.
pub(crate) fn put_terms(
    alloc: Global,
    table: &Table,
    pairs: &Pairs,
    inst: &mut Inst,
) -> Result<(), LineFail>
    ensures types { OnOk result (inst.new.types ≡ inst.old.types) }
    ensures terms { Becomes result inst.new.terms (term_entries table.now inst.old.terms pairs.now) }
{
    for (unknown, term) in pairs.as_slice() {
        put_term(alloc, table, *unknown, *term, inst)?;
    }
    Ok(())
}

/// Asks that each of the terms has a type.
pub(crate) fn check_all_typed(alloc: Global, entries: &[TermEntry]) -> Result<(), LineFail>
    ensures { Checks result (all_typed (terms_of entries.now)) }
{
    for entry in entries {
        check_typed(alloc, &entry.term)?;
    }
    Ok(())
}
