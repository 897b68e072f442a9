//! Typed terms as words.

use isa_terms::{Name, Term, TermNode, Typ, TypNode};
use std::alloc::AllocError;
use std::fmt::Write;

/// The name behind the text.
fn put_name(text: &mut String, name: &Name) -> Result<(), AllocError> {
    for byte in name.iter() {
        text.push(*byte as char)?;
    }
    Ok(())
}

/// The type behind the text, each constructor before its arguments.
#[cycle(typs)]
fn put_typ(text: &mut String, typ: &Typ) -> Result<(), AllocError> {
    match typ.view() {
        TypNode::Con(name, args) => {
            if name.is_text("fun") {
                text.push('>')?;
            } else if name.is_text("list") {
                text.push('l')?;
            } else if name.is_text("prop") {
                text.push('o')?;
            } else {
                put_name(text, name)?;
            }
            put_typs(text, args.as_slice())
        }
        TypNode::Fixed(name) => put_name(text, name),
        TypNode::Unknown(name, number) => {
            text.push('?')?;
            put_name(text, name)?;
            if *number != 0 {
                text.push('!')?;
            }
            Ok(())
        }
    }
}

#[cycle(typs)]
fn put_typs(text: &mut String, args: &[Typ]) -> Result<(), AllocError> {
    match args.split_first() {
        None => Ok(()),
        Some((first, rest)) => {
            put_typ(text, first)?;
            put_typs(text, rest)
        }
    }
}

/// The name with its type behind the text.
fn put_typed(text: &mut String, name: &Name, typ: &Typ) -> Result<(), AllocError> {
    put_name(text, name)?;
    text.push(':')?;
    put_typ(text, typ)
}

/// The term behind the text, each word before its parts.
pub fn put_term(text: &mut String, t: &Term) -> Result<(), AllocError> {
    match t.view() {
        TermNode::Const(name, typ) => {
            text.push('=')?;
            put_typed(text, name, typ)
        }
        TermNode::Free(name, typ) => put_typed(text, name, typ),
        TermNode::Unknown(name, number, typ) => {
            text.push('?')?;
            if *number != 0 {
                text.push('!')?;
            }
            put_typed(text, name, typ)
        }
        TermNode::Bound(number) => put_number(text, *number),
        TermNode::Abs(name, typ, body) => {
            text.push('%')?;
            put_typed(text, name, typ)?;
            text.push(' ')?;
            put_term(text, body)
        }
        TermNode::App(fun, arg) => {
            text.push_str("@ ")?;
            put_term(text, fun)?;
            text.push(' ')?;
            put_term(text, arg)
        }
    }
}

fn put_number(text: &mut String, number: u32) -> Result<(), AllocError> {
    match write!(text, "{number}") {
        Ok(()) => Ok(()),
        Err(_) => Err(AllocError),
    }
}
