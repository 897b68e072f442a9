use crate::rows::is_answer;
use isa_sketch::{Bench, Fault, split, typ};
use isa_terms::{
    Inst, Name, Names, Term, TermEntries, TermEntry, Terms, Text, Typ, TypeEntries, TypeEntry,
    Typs, same_term, same_typ,
};
use std::alloc::{AllocError, Global};

/// What stands in lists.
#[derive(Drop)]
struct Item {
    name: Name,
    typ: Typ,
    term: Term,
}

/// Whether each list, and an instance, keep two items, written as `NAME TYPE TERM , NAME TYPE TERM`.
pub fn lists_row(alloc: Global, bench: &Bench, wanted: &str, rest: &str) -> Result<bool, Fault> {
    let (left, right) = rest.split_once(" , ").ok_or(Fault::Words)?;
    let first = item_of(alloc, bench, left)?;
    let second = item_of(alloc, bench, right)?;
    Ok(is_answer(wanted, are_kept(alloc, &first, &second)?))
}

fn item_of(alloc: Global, bench: &Bench, text: &str) -> Result<Item, Fault> {
    let (name, text) = split(text)?;
    let (letters, words) = split(text)?;
    Ok(Item {
        name: Name::from_text(alloc, name)?,
        typ: typ(alloc, letters)?,
        term: bench.term(alloc, words)?,
    })
}

fn are_kept(alloc: Global, first: &Item, second: &Item) -> Result<bool, AllocError> {
    Ok(
        in_text(alloc)?
            && in_name(alloc)?
            && in_names(alloc, &first.name, &second.name)?
            && in_types(alloc, &first.typ, &second.typ)?
            && in_terms(alloc, &first.term, &second.term)?
            && in_type_entries(alloc, first, second)?
            && in_term_entries(alloc, first, second)?
            && in_instance(alloc, first, second)?,
    )
}

fn in_text(alloc: Global) -> Result<bool, AllocError> {
    let mut text = Text::new(alloc);
    text.push(b'a')?;
    text.push(b'b')?;
    Ok(text.len() == 2 && *text.get(0) == b'a' && *text.get(1) == b'b')
}

fn in_name(alloc: Global) -> Result<bool, AllocError> {
    let mut name = Name::new(alloc);
    name.push(b'a')?;
    name.push(b'b')?;
    Ok(name.len() == 2 && *name.get(0) == b'a' && *name.get(1) == b'b')
}

fn in_names(alloc: Global, first: &Name, second: &Name) -> Result<bool, AllocError> {
    let mut names = Names::new(alloc);
    names.push(first.copy()?)?;
    names.push(second.copy()?)?;
    Ok(names.len() == 2 && names.get(0).same(first) && names.get(1).same(second))
}

fn in_types(alloc: Global, first: &Typ, second: &Typ) -> Result<bool, AllocError> {
    let mut types = Typs::new(alloc);
    types.push(first.copy()?)?;
    types.push(second.copy()?)?;
    Ok(types.len() == 2 && same_typ(types.get(0), first) && same_typ(types.get(1), second))
}

fn in_terms(alloc: Global, first: &Term, second: &Term) -> Result<bool, AllocError> {
    let mut terms = Terms::new(alloc);
    terms.push(first.copy()?)?;
    terms.push(second.copy()?)?;
    Ok(terms.len() == 2 && same_term(terms.get(0), first) && same_term(terms.get(1), second))
}

fn in_type_entries(alloc: Global, first: &Item, second: &Item) -> Result<bool, AllocError> {
    let mut entries = TypeEntries::new(alloc);
    entries.push(type_entry(first)?)?;
    entries.push(type_entry(second)?)?;
    Ok(entries.len() == 2 && has_type(entries.get(0), first) && has_type(entries.get(1), second))
}

fn in_term_entries(alloc: Global, first: &Item, second: &Item) -> Result<bool, AllocError> {
    let mut entries = TermEntries::new(alloc);
    entries.push(term_entry(first)?)?;
    entries.push(term_entry(second)?)?;
    Ok(entries.len() == 2 && has_term(entries.get(0), first) && has_term(entries.get(1), second))
}

/// Whether an instance lends the entries that were put.
fn in_instance(alloc: Global, first: &Item, second: &Item) -> Result<bool, AllocError> {
    let mut inst = Inst::new(alloc);
    let (name, typ) = (first.name.copy()?, first.typ.copy()?);
    inst.put_type(alloc, name, 0, typ)?;
    let (name, typ) = (second.name.copy()?, second.typ.copy()?);
    inst.put_term(alloc, name, 0, typ, second.term.copy()?)?;
    Ok(lends_type(&inst, first) && lends_term(&inst, second))
}

fn lends_type(inst: &Inst, item: &Item) -> bool {
    let types = inst.types();
    types.len() == 1 && has_type(types.get(0), item)
}

fn lends_term(inst: &Inst, item: &Item) -> bool {
    let terms = inst.terms();
    terms.len() == 1 && has_term(terms.get(0), item)
}

fn type_entry(item: &Item) -> Result<TypeEntry, AllocError> {
    Ok(TypeEntry {
        name: item.name.copy()?,
        number: 0,
        typ: item.typ.copy()?,
    })
}

fn term_entry(item: &Item) -> Result<TermEntry, AllocError> {
    Ok(TermEntry {
        name: item.name.copy()?,
        number: 0,
        typ: item.typ.copy()?,
        term: item.term.copy()?,
    })
}

fn has_type(entry: &TypeEntry, item: &Item) -> bool {
    entry.number == 0 && entry.name.same(&item.name) && same_typ(&entry.typ, &item.typ)
}

fn has_term(entry: &TermEntry, item: &Item) -> bool {
    entry.number == 0
        && entry.name.same(&item.name)
        && same_typ(&entry.typ, &item.typ)
        && same_term(&entry.term, &item.term)
}
