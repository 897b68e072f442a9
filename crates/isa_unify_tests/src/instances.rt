use isa_sketch::{Bench, Fault};
use isa_terms::{Inst, Term, instantiate, same_term};
use std::alloc::Global;

/// Whether the instance of the term is the other one.
pub fn becomes(alloc: Global, inst: &Inst, t: &Term, wanted: &Term) -> Result<bool, Fault> {
    let instance = instantiate(alloc, inst, t)?;
    Ok(same_term(&instance, wanted))
}

/// Whether both terms have one instance.
pub fn makes_equal(alloc: Global, inst: &Inst, left: &Term, right: &Term) -> Result<bool, Fault> {
    let right = instantiate(alloc, inst, right)?;
    becomes(alloc, inst, left, &right)
}

/// Whether the terms have the instances that the text tells, as `T := U ; V := W`.
pub fn all_become(alloc: Global, bench: &Bench, inst: &Inst, entries: &str) -> Result<bool, Fault> {
    for entry in entries.split(" ; ") {
        if !entry.is_empty() && !entry_holds(alloc, bench, inst, entry)? {
            return Ok(false);
        }
    }
    Ok(true)
}

fn entry_holds(alloc: Global, bench: &Bench, inst: &Inst, entry: &str) -> Result<bool, Fault> {
    let (left, right) = entry.split_once(" := ").ok_or(Fault::Words)?;
    let t = bench.term(alloc, left)?;
    let wanted = bench.term(alloc, right)?;
    becomes(alloc, inst, &t, &wanted)
}
