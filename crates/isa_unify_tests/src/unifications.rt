use crate::instances::{all_become, makes_equal};
use crate::matches::terms;
use crate::rows::Call;
use isa_sketch::{Bench, Fault, is_word, number, typ};
use isa_terms::{Inst, Term, Terms, Typ, TypeEntry, inst_typ, same_typ};
use isa_unify::{
    Fresh, TermPair, TypePair, Unified, unify, unify_pairs, unify_type_pairs, unify_types,
};
use std::alloc::Global;

/// Whether unification answers what it should; a unifier has to make both sides equal. New unknowns are numbered from 1.
pub fn unify_row(alloc: Global, bench: &Bench, row: &Call<'_>) -> Result<bool, Fault> {
    let left = bench.term(alloc, row.left)?;
    let right = bench.term(alloc, row.right)?;
    let mut fresh = from_one(alloc);
    match unified(alloc, &left, &right, &mut fresh)? {
        Unified::Yes(inst) => {
            let right = makes_equal(alloc, &inst, &left, &right)?;
            Ok(right && is_unifier(alloc, bench, row, &inst, &fresh)?)
        }
        Unified::No => Ok(is_word(row.wanted, "no")),
        Unified::Outside => Ok(is_word(row.wanted, "outside")),
    }
}

fn unified(alloc: Global, left: &Term, right: &Term, fresh: &mut Fresh) -> Result<Unified, Fault> {
    Ok(unify(alloc, left, right, fresh)?)
}

/// The same of lists of terms, as `P , Q`.
pub fn unify_all_row(alloc: Global, bench: &Bench, row: &Call<'_>) -> Result<bool, Fault> {
    let pairs = term_pairs(alloc, bench, row)?;
    let mut fresh = from_one(alloc);
    match all_unified(alloc, pairs.as_slice(), &mut fresh)? {
        Unified::Yes(inst) => {
            let right = makes_all_equal(alloc, &inst, pairs.as_slice())?;
            Ok(right && is_unifier(alloc, bench, row, &inst, &fresh)?)
        }
        Unified::No => Ok(is_word(row.wanted, "no")),
        Unified::Outside => Ok(is_word(row.wanted, "outside")),
    }
}

fn all_unified(alloc: Global, pairs: &[TermPair], fresh: &mut Fresh) -> Result<Unified, Fault> {
    Ok(unify_pairs(alloc, pairs, fresh)?)
}

fn makes_all_equal(alloc: Global, inst: &Inst, pairs: &[TermPair]) -> Result<bool, Fault> {
    for pair in pairs {
        if !makes_equal(alloc, inst, &pair.left, &pair.right)? {
            return Ok(false);
        }
    }
    Ok(true)
}

fn term_pairs(alloc: Global, bench: &Bench, row: &Call<'_>) -> Result<Vec<TermPair>, Fault> {
    let lefts = terms(alloc, bench, row.left)?;
    let rights = terms(alloc, bench, row.right)?;
    let mut pairs = Vec::new(alloc);
    for (left, right) in lefts.iter().zip(rights.iter()) {
        let pair = TermPair {
            left: left.copy()?,
            right: right.copy()?,
        };
        if pairs.push(pair).is_err() {
            return Err(Fault::Memory);
        }
    }
    Ok(pairs)
}

fn from_one(alloc: Global) -> Fresh {
    let mut fresh = Fresh::after(&Terms::new(alloc));
    fresh.set(1);
    fresh
}

/// Whether a unifier is wanted, where new unknowns are then numbered from the wanted number on, if there is one, and it
/// has the row's entries.
fn is_unifier(
    alloc: Global,
    bench: &Bench,
    row: &Call<'_>,
    inst: &Inst,
    fresh: &Fresh,
) -> Result<bool, Fault> {
    let counted = match row.wanted.strip_prefix("yes ") {
        Some(next) => is_number(fresh, next)?,
        None => is_word(row.wanted, "yes"),
    };
    Ok(counted && all_become(alloc, bench, inst, row.entries)?)
}

fn is_number(fresh: &Fresh, text: &str) -> Result<bool, Fault> {
    Ok(fresh.number() as usize == number(text)?)
}

/// Whether unification of types answers what it should; a unifier has to make both types equal.
pub fn types_row(alloc: Global, row: &Call<'_>) -> Result<bool, Fault> {
    let left = typ(alloc, row.left)?;
    let right = typ(alloc, row.right)?;
    match unified_types(alloc, &left, &right)? {
        None => Ok(is_word(row.wanted, "none")),
        Some(inst) => {
            let right = makes_types_equal(alloc, &inst, &left, &right)?;
            Ok(right && is_word(row.wanted, "types") && all_types_become(alloc, &inst, row)?)
        }
    }
}

fn unified_types(alloc: Global, left: &Typ, right: &Typ) -> Result<Option<Inst>, Fault> {
    Ok(unify_types(alloc, left, right)?)
}

fn makes_types_equal(alloc: Global, inst: &Inst, left: &Typ, right: &Typ) -> Result<bool, Fault> {
    let right = inst_typ(alloc, inst.types().as_slice(), right)?;
    type_becomes(alloc, inst, left, &right)
}

fn type_becomes(alloc: Global, inst: &Inst, typ: &Typ, wanted: &Typ) -> Result<bool, Fault> {
    let instance = inst_typ(alloc, inst.types().as_slice(), typ)?;
    Ok(same_typ(&instance, wanted))
}

fn all_types_become(alloc: Global, inst: &Inst, row: &Call<'_>) -> Result<bool, Fault> {
    for entry in row.entries.split(" ; ") {
        if !entry.is_empty() && !type_entry_holds(alloc, inst, entry)? {
            return Ok(false);
        }
    }
    Ok(true)
}

fn type_entry_holds(alloc: Global, inst: &Inst, entry: &str) -> Result<bool, Fault> {
    let (left, right) = entry.split_once(" := ").ok_or(Fault::Words)?;
    let left = typ(alloc, left)?;
    let right = typ(alloc, right)?;
    type_becomes(alloc, inst, &left, &right)
}

/// The same of lists of types, as `T , U`.
pub fn all_types_row(alloc: Global, row: &Call<'_>) -> Result<bool, Fault> {
    match all_types_unified(alloc, type_pairs(alloc, row)?)? {
        None => Ok(is_word(row.wanted, "none")),
        Some(entries) => {
            let inst = instance_of(alloc, entries)?;
            let pairs = type_pairs(alloc, row)?;
            let right = makes_pairs_equal(alloc, &inst, pairs.as_slice())?;
            Ok(right && is_word(row.wanted, "types") && all_types_become(alloc, &inst, row)?)
        }
    }
}

fn all_types_unified(alloc: Global, pairs: Vec<TypePair>) -> Result<Option<Vec<TypeEntry>>, Fault> {
    Ok(unify_type_pairs(alloc, pairs)?)
}

fn instance_of(alloc: Global, entries: Vec<TypeEntry>) -> Result<Inst, Fault> {
    let mut inst = Inst::new(alloc);
    for entry in entries {
        inst.put_type(alloc, entry.name, entry.number, entry.typ)?;
    }
    Ok(inst)
}

fn makes_pairs_equal(alloc: Global, inst: &Inst, pairs: &[TypePair]) -> Result<bool, Fault> {
    for pair in pairs {
        if !makes_types_equal(alloc, inst, &pair.left, &pair.right)? {
            return Ok(false);
        }
    }
    Ok(true)
}

fn type_pairs(alloc: Global, row: &Call<'_>) -> Result<Vec<TypePair>, Fault> {
    let mut pairs = Vec::new(alloc);
    for (left, right) in row.left.split(" , ").zip(row.right.split(" , ")) {
        let pair = TypePair {
            left: typ(alloc, left)?,
            right: typ(alloc, right)?,
        };
        if pairs.push(pair).is_err() {
            return Err(Fault::Memory);
        }
    }
    Ok(pairs)
}
