//! What is told of accepted theorems.
ghost use Rattle.std.specs.Prelude.{◌≡◌, ◌++◌, ◌∷◌, ◌≤◌, length, map, IfOk, OnOk};
ghost use Rattle.std.specs.List.{insert};
ghost use Rattle.isa_kernel.specs.Axioms.{axioms_of};
ghost use Rattle.isa_cert.specs.Checking.{accepted, by_name, put_axiom};

use crate::certs::{Accepted, Certs};
use crate::table::End;
use isa_kernel::{Axioms, BaseEntry, NamedProp};
use std::alloc::{AllocError, Global};
use std::cmp::Ordering;

/// Where the axiom goes: before the first of the axioms whose name is not less than its own.
fn place_of(axioms: &[NamedProp], one: &NamedProp) -> usize
    ensures place { insert axioms.now result one.now ≡ put_axiom one.now axioms.now }
    ensures within { result ≤ length axioms.now }
{
    for (place, other) in axioms.iter().enumerate() {
        match other.name.as_bytes().cmp(one.name.as_bytes()) {
            Ordering::Less => {}
            Ordering::Equal | Ordering::Greater => return place,
        }
    }
    axioms.len()
}

/// The axioms of a base, by the bytes of their names.
fn sorted(alloc: Global, base: &[BaseEntry]) -> Result<Vec<NamedProp>, AllocError>
    ensures { IfOk result (λ all. all.items ≡ by_name (axioms_of base.now)) }
{
    let mut all = Vec::new(alloc);
    let mut left = base.len();
    while left > 0 {
        left -= 1;
        if let BaseEntry::Axiom(one) = &base[left] {
            let place = place_of(all.as_slice(), one);
            let Ok(()) = all.insert(place, one.copy()?) else {
                return Err(AllocError);
            };
        }
    }
    Ok(all)
}

/// The axioms of a base, by the bytes of their names.
fn axioms_by_name(alloc: Global, base: &[BaseEntry]) -> Result<Axioms, AllocError>
    ensures { IfOk result (λ all. all ≡ by_name (axioms_of base.now)) }
{
    let sorted = sorted(alloc, base)?;
    let mut all = Axioms::new(alloc);
    for one in sorted.as_slice() {
        all.push(one.copy()?)?;
    }
    Ok(all)
}

/// What is told of an end.
fn accepted(alloc: Global, end: &End) -> Result<Accepted, AllocError>
    ensures { IfOk result (λ a. a ≡ accepted end.now) }
{
    Ok(Accepted {
        name: end.name.copy()?,
        axioms: axioms_by_name(alloc, end.theorem.base().as_slice())?,
        prop: end.theorem.prop().copy()?,
    })
}

/// What is told of the ends.
pub(crate) fn certs(alloc: Global, ends: &[End]) -> Result<Certs, AllocError>
    ensures { IfOk result (λ all. all ≡ map accepted ends.now) }
{
    let mut all = Certs::new(alloc);
    for end in ends {
        all.push(accepted(alloc, end)?)?;
    }
    Ok(all)
}
