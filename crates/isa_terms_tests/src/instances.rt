use isa_sketch::{Bench, Fault, number, split, typ};
use isa_terms::{Inst, Term, TermNode, Typ, TypNode};
use std::alloc::Global;

/// The instance of the entries that the text tells, as `type T := U ; V := W`.
pub fn instance(alloc: Global, bench: &Bench, text: &str) -> Result<Inst, Fault> {
    let mut inst = Inst::new(alloc);
    for entry in text.split(" ; ") {
        put_entry(alloc, bench, &mut inst, entry)?;
    }
    Ok(inst)
}

fn put_entry(alloc: Global, bench: &Bench, inst: &mut Inst, entry: &str) -> Result<(), Fault> {
    let (left, right) = entry.split_once(" := ").ok_or(Fault::Words)?;
    match left.strip_prefix("type ") {
        Some(letters) => put_type(alloc, inst, &typ(alloc, letters)?, typ(alloc, right)?),
        None => {
            let unknown = bench.term(alloc, left)?;
            put_term(alloc, inst, &unknown, bench.term(alloc, right)?)
        }
    }
}

/// Puts a type for a type unknown.
fn put_type(alloc: Global, inst: &mut Inst, unknown: &Typ, typ: Typ) -> Result<(), Fault> {
    match unknown.view() {
        TypNode::Unknown(name, number) => Ok(inst.put_type(alloc, name.copy()?, *number, typ)?),
        _ => Err(Fault::Words),
    }
}

/// Puts a term for an unknown.
fn put_term(alloc: Global, inst: &mut Inst, unknown: &Term, term: Term) -> Result<(), Fault> {
    match unknown.view() {
        TermNode::Unknown(name, number, typ) => {
            Ok(inst.put_term(alloc, name.copy()?, *number, typ.copy()?, term)?)
        }
        _ => Err(Fault::Words),
    }
}

/// Whether the instance has as many types and as many terms as it is wanted.
pub fn entries_row(alloc: Global, bench: &Bench, wanted: &str, rest: &str) -> Result<bool, Fault> {
    let (types, terms) = split(wanted)?;
    let inst = instance(alloc, bench, rest)?;
    Ok(count_types(&inst) == number(types)? && count_terms(&inst) == number(terms)?)
}

fn count_types(inst: &Inst) -> usize {
    inst.types().len()
}

fn count_terms(inst: &Inst) -> usize {
    inst.terms().len()
}
