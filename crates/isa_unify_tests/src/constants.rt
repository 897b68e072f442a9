use crate::matches::terms;
use crate::rows::Call;
use isa_sketch::{Bench, Fault, is_word, typ};
use isa_terms::{Term, TermEntry, TypeEntry, same_term, same_typ};
use isa_unify::constants_of;
use std::alloc::Global;

/// Whether the instance that maps what stands in the terms to itself has just the unknowns on the right, in that order, and
/// the type unknowns of the entries.
pub fn constants_row(alloc: Global, bench: &Bench, row: &Call<'_>) -> Result<bool, Fault> {
    let all = terms(alloc, bench, row.left)?;
    let unknowns = terms(alloc, bench, row.right)?;
    let inst = constants_of(alloc, all.as_slice())?;
    let types = are_types(alloc, inst.types().as_slice(), row.entries)?;
    Ok(
        is_word(row.wanted, "constants")
            && types
            && are_themselves(inst.terms().as_slice(), unknowns.as_slice()),
    )
}

/// Whether the entries are the unknowns, each as itself.
fn are_themselves(entries: &[TermEntry], unknowns: &[Term]) -> bool {
    if entries.len() != unknowns.len() {
        return false;
    }
    for (entry, unknown) in entries.iter().zip(unknowns.iter()) {
        if !same_term(&entry.term, unknown) {
            return false;
        }
    }
    true
}

/// Whether the entries are the type unknowns of the text, as `a , b`, each as itself.
fn are_types(alloc: Global, entries: &[TypeEntry], text: &str) -> Result<bool, Fault> {
    let mut count = 0;
    for word in text.split(" , ") {
        if !word.is_empty() {
            match entries.get(count) {
                Some(entry) => {
                    let wanted = typ(alloc, word)?;
                    if !same_typ(&entry.typ, &wanted) {
                        return Ok(false);
                    }
                }
                None => return Ok(false),
            }
            count += 1;
        }
    }
    Ok(count == entries.len())
}
