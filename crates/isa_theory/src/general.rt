//! Variables that become unknowns.
ghost use Rattle.std.specs.Prelude.{◌≡◌, ◌++◌, OnOk, IfOk};
ghost use Rattle.isa_terms.specs.Types.{tys_of};
ghost use Rattle.isa_theory.specs.General.{type_names, types_names, variable_names, general_type, general_prop};

use isa_terms::{Name, Names, Term, TermNode, Typ, TypNode, gen_term, gen_typ};
use std::alloc::{AllocError, Global};

/// Adds the names of the type variables.
#[cycle(names)]
fn push_type_names(typ: &Typ, names: &mut Names) -> Result<(), AllocError>
    ensures { OnOk result (names.new ≡ names.old ++ type_names typ.now) }
{
    match typ.view() {
        TypNode::Con(_, args) => push_types_names(args.as_slice(), names),
        TypNode::Fixed(name) => names.push(name.copy()?),
        TypNode::Unknown(_, _) => Ok(()),
    }
}

#[cycle(names)]
fn push_types_names(typs: &[Typ], names: &mut Names) -> Result<(), AllocError>
    ensures { OnOk result (names.new ≡ names.old ++ types_names (tys_of typs.now)) }
{
    let Some((first, rest)) = typs.split_first() else {
        return Ok(());
    };
    push_type_names(first, names)?;
    push_types_names(rest, names)
}

/// Adds the names of the free variables and the type variables.
fn push_variable_names(t: &Term, names: &mut Names) -> Result<(), AllocError>
    ensures { OnOk result (names.new ≡ names.old ++ variable_names t.now) }
{
    match t.view() {
        TermNode::Free(name, typ) => {
            names.push(name.copy()?)?;
            push_type_names(typ, names)
        }
        TermNode::Const(_, typ) | TermNode::Unknown(_, _, typ) => push_type_names(typ, names),
        TermNode::Bound(_) => Ok(()),
        TermNode::Abs(_, typ, body) => {
            push_type_names(typ, names)?;
            push_variable_names(body, names)
        }
        TermNode::App(fun, arg) => {
            push_variable_names(fun, names)?;
            push_variable_names(arg, names)
        }
    }
}

/// The names of the free variables and the type variables.
pub fn variable_names(alloc: Global, t: &Term) -> Result<Names, AllocError>
    ensures { IfOk result (λ names. names ≡ variable_names t.now) }
{
    let mut names = Names::new(alloc);
    push_variable_names(t, &mut names)?;
    Ok(names)
}

/// The type with unknowns for its type variables.
pub fn general_type(alloc: Global, typ: &Typ) -> Result<Typ, AllocError>
    ensures { IfOk result (λ general. general ≡ general_type typ.now) }
{
    let mut names = Names::new(alloc);
    push_type_names(typ, &mut names)?;
    gen_typ(alloc, names.as_slice(), typ)
}

/// The proposition with unknowns for its free variables and its type variables.
pub fn general_prop(alloc: Global, prop: &Term) -> Result<Term, AllocError>
    ensures { IfOk result (λ general. general ≡ general_prop prop.now) }
{
    gen_term(alloc, variable_names(alloc, prop)?.as_slice(), prop)
}
