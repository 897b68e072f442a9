//! Terms for unknowns, as abstractions over bound variables.

ghost use Rattle.std.specs.Prelude.{◌≡◌, map, IfOk};
ghost use Rattle.isa_unify.specs.Unification.{no_variable, variable, bind_all, place_behind, moved, abstracted, arrows, range_behind, on_bounds, over};

use crate::equation::{Binders, Variable};
use isa_terms::{
    Name, Term, TermNode, Typ, TypNode, Typs, abstraction, function_type, split_function,
};
use std::alloc::{AllocError, Global};

/// The variable with that number.
fn variable(alloc: Global, binders: &Binders, number: u32) -> Result<Variable, AllocError>
    ensures { IfOk result (λ v. v ≡ variable binders.now number) }
{
    match binders.get(number) {
        Some(variable) => variable.copy(),
        None => Ok(Variable {
            name: Name::new(alloc),
            typ: Typ::new(alloc, TypNode::Con(Name::new(alloc), Typs::new(alloc)))?,
        }),
    }
}

/// The abstraction of the term over variables among the binders, the outermost first.
fn bound_over(
    alloc: Global,
    binders: &Binders,
    numbers: &[u32],
    t: Term,
) -> Result<Term, AllocError>
    ensures { IfOk result (λ r. r ≡ bind_all (map (variable binders.now) numbers.now) t) }
{
    match numbers.split_first() {
        None => Ok(t),
        Some((first, rest)) => {
            let body = bound_over(alloc, binders, rest, t)?;
            let Variable { name, typ } = variable(alloc, binders, *first)?;
            abstraction(alloc, &name, &typ, body)
        }
    }
}

/// The number of the variable under binders over the numbers, the first of them the outermost.
fn place_behind(numbers: &[u32], number: u32) -> Result<u32, AllocError>
    ensures { IfOk result (λ place. place ≡ place_behind numbers.now number) }
{
    match numbers.split_first() {
        None => Ok(0),
        Some((first, rest)) => {
            if *first == number {
                u32::try_from(rest.len()).map_err(|_| AllocError)
            } else {
                place_behind(rest, number)
            }
        }
    }
}

/// The term, whose loose variables are among the numbers, under binders over them.
#[tactic(auto, using(crate::proofs::Unvisited::moved_same))]
fn moved(alloc: Global, numbers: &[u32], depth: u32, t: &Term) -> Result<Term, AllocError>
    ensures { IfOk result (λ r. r ≡ moved numbers.now depth t.now) }
{
    if t.loose_end() <= u64::from(depth) {
        return t.copy();
    }
    match t.view() {
        TermNode::Const(_, _) | TermNode::Free(_, _) | TermNode::Unknown(_, _, _) => t.copy(),
        TermNode::Bound(number) => {
            if *number < depth {
                t.copy()
            } else {
                let place = place_behind(numbers, *number - depth)?;
                let number = depth.checked_add(place).ok_or(AllocError)?;
                Term::new(alloc, TermNode::Bound(number))
            }
        }
        TermNode::Abs(name, typ, body) => {
            let under = depth.checked_add(1).ok_or(AllocError)?;
            let body = moved(alloc, numbers, under, body)?;
            Term::new(alloc, TermNode::Abs(name.copy()?, typ.copy()?, body))
        }
        TermNode::App(fun, arg) => {
            let fun = moved(alloc, numbers, depth, fun)?;
            let arg = moved(alloc, numbers, depth, arg)?;
            Term::new(alloc, TermNode::App(fun, arg))
        }
    }
}

/// `%xs. t`, the xs being variables among the binders, which give their names and types.
pub fn abstracted(
    alloc: Global,
    binders: &Binders,
    numbers: &[u32],
    t: &Term,
) -> Result<Term, AllocError>
    ensures { IfOk result (λ r. r ≡ abstracted binders.now numbers.now t.now) }
{
    let body = moved(alloc, numbers, 0, t)?;
    bound_over(alloc, binders, numbers, body)
}

/// The type of functions from the variables to the range.
fn arrows(alloc: Global, binders: &Binders, numbers: &[u32], range: &Typ) -> Result<Typ, AllocError>
    ensures { IfOk result (λ T. T ≡ arrows binders.now numbers.now range.now) }
{
    match numbers.split_first() {
        None => range.copy(),
        Some((first, rest)) => {
            let range = arrows(alloc, binders, rest, range)?;
            let Variable { name: _, typ } = variable(alloc, binders, *first)?;
            function_type(alloc, typ, range)
        }
    }
}

/// The type that a function gives at as many arguments.
pub fn range_behind<'t>(numbers: &[u32], typ: &'t Typ) -> &'t Typ
    ensures { result.now ≡ range_behind numbers.now typ.now }
{
    match numbers.split_first() {
        None => typ,
        Some((_, rest)) => match split_function(typ) {
            None => typ,
            Some((_, range)) => range_behind(rest, range),
        },
    }
}

/// The term applied to bound variables.
fn on_bounds(alloc: Global, fun: Term, numbers: &[u32]) -> Result<Term, AllocError>
    ensures { IfOk result (λ t. t ≡ on_bounds fun numbers.now) }
{
    match numbers.split_first() {
        None => Ok(fun),
        Some((first, rest)) => {
            let arg = Term::new(alloc, TermNode::Bound(*first))?;
            on_bounds(alloc, Term::new(alloc, TermNode::App(fun, arg))?, rest)
        }
    }
}

/// The unknown of that name and number on the variables, with that range.
pub fn over(
    alloc: Global,
    binders: &Binders,
    name: &Name,
    number: u32,
    numbers: &[u32],
    range: &Typ,
) -> Result<Term, AllocError>
    ensures { IfOk result (λ t. t ≡ over binders.now name.now number numbers.now range.now) }
{
    let typ = arrows(alloc, binders, numbers, range)?;
    let unknown = Term::new(alloc, TermNode::Unknown(name.copy()?, number, typ))?;
    on_bounds(alloc, unknown, numbers)
}
