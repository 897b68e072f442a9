//! Terms for unknowns and types for type unknowns, in all that a unification holds.

ghost use Rattle.std.specs.Prelude.{◌≡◌, [], map, IfOk};
ghost use Rattle.isa_unify.specs.BinderLayers.{variables_of};
ghost use Rattle.isa_unify.specs.TypeUnification.{entries_under};
ghost use Rattle.isa_unify.specs.Unification.{filled, filled_equation, filled_entry, retyped, retyped_variable, retyped_equation, retyped_entry, retyped_state};

use crate::equation::{Binders, Equation, Equations, Layer, Variable};
use crate::progress::State;
use crate::types::typ_under;
use isa_terms::{Term, TermEntries, TermEntry, TypeEntries, TypeEntry, inst_term, norm};
use std::alloc::{AllocError, Global};

/// The term with terms for its unknowns, in normal form.
fn filled(alloc: Global, terms: &[TermEntry], t: &Term) -> Result<Term, AllocError>
    ensures { IfOk result (λ r. r ≡ filled terms.now t.now) }
{
    let none = TypeEntries::new(alloc);
    let instance = inst_term(alloc, none.as_slice(), terms, t)?;
    norm(alloc, &instance)
}

/// The equation with terms for unknowns, in normal form.
pub fn filled_equation(
    alloc: Global,
    terms: &[TermEntry],
    equation: &Equation,
) -> Result<Equation, AllocError>
    ensures { IfOk result (λ r. r ≡ filled_equation terms.now equation.now) }
{
    Ok(Equation {
        binders: equation.binders.copy()?,
        left: filled(alloc, terms, &equation.left)?,
        right: filled(alloc, terms, &equation.right)?,
    })
}

/// The entries with terms for unknowns, in normal form.
pub fn filled_entries(
    alloc: Global,
    terms: &[TermEntry],
    entries: &[TermEntry],
) -> Result<TermEntries, AllocError>
    ensures { IfOk result (λ r. r ≡ map (filled_entry terms.now) entries.now) }
{
    let mut done = TermEntries::new(alloc);
    for entry in entries {
        done.push(TermEntry {
            name: entry.name.copy()?,
            number: entry.number,
            typ: entry.typ.copy()?,
            term: filled(alloc, terms, &entry.term)?,
        })?;
    }
    Ok(done)
}

/// The term with types for its type unknowns.
fn retyped(alloc: Global, types: &[TypeEntry], t: &Term) -> Result<Term, AllocError>
    ensures { IfOk result (λ r. r ≡ retyped types.now t.now) }
{
    let none = TermEntries::new(alloc);
    inst_term(alloc, types, none.as_slice(), t)
}

/// The binders with types for type unknowns.
fn retyped_binders(
    alloc: Global,
    types: &[TypeEntry],
    binders: &Binders,
) -> Result<Binders, AllocError>
    ensures { IfOk result (λ r. r ≡ map (retyped_variable types.now) binders.now) }
{
    match binders.view() {
        Layer::Outermost => binders.copy(),
        Layer::Under(variable, outer) => {
            let outer = retyped_binders(alloc, types, outer)?;
            let variable = Variable {
                name: variable.name.copy()?,
                typ: typ_under(alloc, types, &variable.typ)?,
            };
            outer.under(alloc, variable)
        }
    }
}

/// The equation with types for type unknowns.
pub fn retyped_equation(
    alloc: Global,
    types: &[TypeEntry],
    equation: &Equation,
) -> Result<Equation, AllocError>
    ensures { IfOk result (λ r. r ≡ retyped_equation types.now equation.now) }
{
    Ok(Equation {
        binders: retyped_binders(alloc, types, &equation.binders)?,
        left: retyped(alloc, types, &equation.left)?,
        right: retyped(alloc, types, &equation.right)?,
    })
}

fn retyped_equations(
    alloc: Global,
    types: &[TypeEntry],
    equations: &Equations,
) -> Result<Equations, AllocError>
    ensures { IfOk result (λ r. r ≡ map (retyped_equation types.now) equations.now) }
{
    let mut done = Vec::new(alloc);
    for equation in equations.last_first() {
        done.push(retyped_equation(alloc, types, equation)?)?;
    }
    Ok(Equations::of_last_first(done))
}

/// The entries for type unknowns under others.
pub fn retyped_types(
    alloc: Global,
    types: &[TypeEntry],
    entries: &[TypeEntry],
) -> Result<TypeEntries, AllocError>
    ensures { IfOk result (λ r. r ≡ entries_under types.now entries.now) }
{
    let mut done = TypeEntries::new(alloc);
    for entry in entries {
        done.push(TypeEntry {
            name: entry.name.copy()?,
            number: entry.number,
            typ: typ_under(alloc, types, &entry.typ)?,
        })?;
    }
    Ok(done)
}

/// The entries with types for type unknowns.
pub fn retyped_entries(
    alloc: Global,
    types: &[TypeEntry],
    entries: &[TermEntry],
) -> Result<TermEntries, AllocError>
    ensures { IfOk result (λ r. r ≡ map (retyped_entry types.now) entries.now) }
{
    let mut done = TermEntries::new(alloc);
    for entry in entries {
        done.push(TermEntry {
            name: entry.name.copy()?,
            number: entry.number,
            typ: entry.typ.copy()?,
            term: retyped(alloc, types, &entry.term)?,
        })?;
    }
    Ok(done)
}

/// The state with types for type unknowns; without any it stays.
#[tactic(auto, using(crate::proofs::NoTypes::retyped_by_none))]
pub fn retyped_state(alloc: Global, types: &[TypeEntry], state: State) -> Result<State, AllocError>
    ensures { IfOk result (λ r. r ≡ retyped_state types.now state) }
{
    if types.is_empty() {
        return Ok(state);
    }
    let equations = retyped_equations(alloc, types, &state.equations)?;
    let terms = retyped_entries(alloc, types, state.terms.as_slice())?;
    let types = retyped_types(alloc, types, state.types.as_slice())?;
    Ok(State {
        equations,
        types,
        terms,
        ..state
    })
}
