//! Types and terms as words: each application in parentheses, each name with its type.
use isa_terms::{Name, Term, TermNode, Typ, TypNode};
use std::alloc::AllocError;
use std::fmt::Write;

/// The name behind the text.
fn put_name(text: &mut String, name: &Name) -> Result<(), AllocError> {
    for byte in name.iter() {
        text.push(*byte as char)?;
    }
    Ok(())
}

/// The type behind the text, a constructor's arguments in parentheses behind it.
#[cycle(typs)]
pub fn put_typ(text: &mut String, typ: &Typ) -> Result<(), AllocError> {
    match typ.view() {
        TypNode::Con(name, args) => {
            put_name(text, name)?;
            if args.is_empty() {
                return Ok(());
            }
            text.push('(')?;
            put_typs(text, args.as_slice())?;
            text.push(')')
        }
        TypNode::Fixed(name) => put_name(text, name),
        TypNode::Unknown(name, number) => {
            text.push('?')?;
            put_name(text, name)?;
            put_number(text, *number)
        }
    }
}

#[cycle(typs)]
fn put_typs(text: &mut String, args: &[Typ]) -> Result<(), AllocError> {
    match args.split_first() {
        None => Ok(()),
        Some((first, rest)) => {
            put_typ(text, first)?;
            if !rest.is_empty() {
                text.push(',')?;
            }
            put_typs(text, rest)
        }
    }
}

/// The number behind the text, unless it is 0.
fn put_number(text: &mut String, number: u32) -> Result<(), AllocError> {
    if number == 0 {
        return Ok(());
    }
    match write!(text, ".{number}") {
        Ok(()) => Ok(()),
        Err(_) => Err(AllocError),
    }
}

/// The name with its type behind the text.
fn put_typed(text: &mut String, name: &Name, typ: &Typ) -> Result<(), AllocError> {
    put_name(text, name)?;
    text.push(':')?;
    put_typ(text, typ)
}

/// The term behind the text. A bound variable is `!` and its number, `!` for 0.
pub fn put_term(text: &mut String, t: &Term) -> Result<(), AllocError> {
    match t.view() {
        TermNode::Const(name, typ) => {
            text.push('=')?;
            put_typed(text, name, typ)
        }
        TermNode::Free(name, typ) => put_typed(text, name, typ),
        TermNode::Unknown(name, number, typ) => {
            text.push('?')?;
            put_name(text, name)?;
            put_number(text, *number)?;
            text.push(':')?;
            put_typ(text, typ)
        }
        TermNode::Bound(number) => {
            text.push('!')?;
            put_number(text, *number)
        }
        TermNode::Abs(name, typ, body) => {
            text.push('%')?;
            put_typed(text, name, typ)?;
            text.push('.')?;
            put_term(text, body)
        }
        TermNode::App(fun, arg) => {
            text.push('(')?;
            put_term(text, fun)?;
            text.push(' ')?;
            put_term(text, arg)?;
            text.push(')')
        }
    }
}
