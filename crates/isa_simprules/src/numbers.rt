//! Numbers for unknowns and type unknowns that are new to a rule.
ghost use Rattle.std.specs.Prelude.{◌≡◌, IfOk};
ghost use Rattle.isa_simprules.specs.Numbers.{is_numbered, is_taken, is_type_numbered, is_type_taken, first_free, least_number, least_type_number};

use isa_terms::{Name, Term, TermNode, Typ, TypNode};
use std::alloc::AllocError;

/// Whether it is the unknown of that name and number, at any type.
fn is_numbered(name: &Name, number: u32, t: &Term) -> bool
    ensures { result ≡ is_numbered name.now number t.now }
{
    match t.view() {
        TermNode::Unknown(other, place, _) => name.same(other) && number == *place,
        _ => false,
    }
}

/// Whether one of the unknowns has that name and number.
fn is_taken(unknowns: &[Term], name: &Name, number: u32) -> bool
    ensures { result ≡ is_taken unknowns.now name.now number }
{
    for unknown in unknowns {
        if is_numbered(name, number, unknown) {
            return true;
        }
    }
    false
}

/// The first of so many numbers from that one on that is not taken, or the one behind them.
#[tactic(auto, using(crate::proofs::Counted::free_here, crate::proofs::Counted::free_later))]
fn first_free(unknowns: &[Term], name: &Name, count: usize, number: u32) -> Result<u32, AllocError>
    ensures { IfOk result (λ n. n ≡ first_free (is_taken unknowns.now name.now) count number) }
{
    if count == 0 {
        return Ok(number);
    }
    if !is_taken(unknowns, name, number) {
        return Ok(number);
    }
    let next = number.checked_add(1).ok_or(AllocError)?;
    first_free(unknowns, name, count - 1, next)
}

/// The least number at which none of the unknowns has that name.
pub(crate) fn least_number(unknowns: &[Term], name: &Name) -> Result<u32, AllocError>
    ensures { IfOk result (λ n. n ≡ least_number unknowns.now name.now) }
{
    first_free(unknowns, name, unknowns.len(), 0)
}

/// Whether it is the type unknown of that name and number.
fn is_type_numbered(name: &Name, number: u32, typ: &Typ) -> bool
    ensures { result ≡ is_type_numbered name.now number typ.now }
{
    match typ.view() {
        TypNode::Unknown(other, place) => name.same(other) && number == *place,
        _ => false,
    }
}

/// Whether one of the type unknowns has that name and number.
fn is_type_taken(unknowns: &[Typ], name: &Name, number: u32) -> bool
    ensures { result ≡ is_type_taken unknowns.now name.now number }
{
    for unknown in unknowns {
        if is_type_numbered(name, number, unknown) {
            return true;
        }
    }
    false
}

/// The first of so many numbers from that one on that no type unknown of that name has, or the one behind them.
#[tactic(auto, using(crate::proofs::Counted::free_here, crate::proofs::Counted::free_later))]
fn first_free_type(
    unknowns: &[Typ],
    name: &Name,
    count: usize,
    number: u32,
) -> Result<u32, AllocError>
    ensures { IfOk result (λ n. n ≡ first_free (is_type_taken unknowns.now name.now) count number) }
{
    if count == 0 {
        return Ok(number);
    }
    if !is_type_taken(unknowns, name, number) {
        return Ok(number);
    }
    let next = number.checked_add(1).ok_or(AllocError)?;
    first_free_type(unknowns, name, count - 1, next)
}

/// The least number at which none of the type unknowns has that name.
pub(crate) fn least_type_number(unknowns: &[Typ], name: &Name) -> Result<u32, AllocError>
    ensures { IfOk result (λ n. n ≡ least_type_number unknowns.now name.now) }
{
    first_free_type(unknowns, name, unknowns.len(), 0)
}
