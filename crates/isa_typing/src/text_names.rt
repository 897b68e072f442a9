//! The type variables of a text.

ghost use Rattle.std.specs.Prelude.{◌≡◌, ◌++◌, OnOk, true, false};
ghost use Rattle.isa_terms.specs.Types.{tys_of};
ghost use Rattle.isa_typing.specs.Scopes.{declared_in};
ghost use Rattle.isa_typing.specs.TextNames.{names_in_ty, names_in_tys, names_if_any, names_in};

use indexmap::IndexMap;
use isa_raw::{RawNode, RawTerm};
use isa_terms::{Name, Names, Typ, TypNode};
use std::alloc::{AllocError, Global};

/// Puts the names of the type's type variables behind the others, and those of its type unknowns where they are asked
/// for.
#[cycle(typs)]
fn note_typ(names: &mut Names, typ: &Typ, unknowns: bool) -> Result<(), AllocError>
    ensures { OnOk result (names.new ≡ names.old ++ names_in_ty unknowns typ.now) }
{
    match typ.view() {
        TypNode::Con(_, args) => note_typs(names, args.as_slice(), unknowns),
        TypNode::Fixed(name) => names.push(name.copy()?),
        TypNode::Unknown(name, _) => {
            if unknowns {
                names.push(name.copy()?)
            } else {
                Ok(())
            }
        }
    }
}

#[cycle(typs)]
fn note_typs(names: &mut Names, args: &[Typ], unknowns: bool) -> Result<(), AllocError>
    ensures { OnOk result (names.new ≡ names.old ++ names_in_tys unknowns (tys_of args.now)) }
{
    match args.split_first() {
        None => Ok(()),
        Some((first, rest)) => {
            note_typ(names, first, unknowns)?;
            note_typs(names, rest, unknowns)
        }
    }
}

/// Likewise for the declared type of a constant, if the name is one.
fn note_constant(
    names: &mut Names,
    constants: &IndexMap<Name, Typ>,
    name: &Name,
) -> Result<(), AllocError>
    ensures { OnOk result (names.new ≡ names.old ++ names_if_any false (declared_in constants.now.entries name.now)) }
{
    match constants.get(name) {
        Some(general) => note_typ(names, general, false),
        None => Ok(()),
    }
}

/// Likewise for the type that a binder's variable is given.
fn note_given(names: &mut Names, given: &Option<Typ>) -> Result<(), AllocError>
    ensures { OnOk result (names.new ≡ names.old ++ names_if_any true given.now) }
{
    match given {
        Some(typ) => note_typ(names, typ, true),
        None => Ok(()),
    }
}

/// Puts the names of the text's type variables behind the others.
pub(crate) fn note_names(
    names: &mut Names,
    constants: &IndexMap<Name, Typ>,
    raw: &RawTerm,
) -> Result<(), AllocError>
    ensures { OnOk result (names.new ≡ names.old ++ names_in (declared_in constants.now.entries) raw.now) }
{
    match raw.view() {
        RawNode::Name(name) | RawNode::Constant(name) => note_constant(names, constants, name),
        RawNode::Unknown(_) => Ok(()),
        RawNode::Typed(body, typ) => {
            note_names(names, constants, body)?;
            note_typ(names, typ, true)
        }
        RawNode::Abs(_, given, body) => {
            note_given(names, given)?;
            note_names(names, constants, body)
        }
        RawNode::App(fun, arg) => {
            note_names(names, constants, fun)?;
            note_names(names, constants, arg)
        }
    }
}
