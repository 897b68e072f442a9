//! Terms as words: each application in parentheses, without types.
use isa_terms::{Name, Term, TermNode};
use std::alloc::AllocError;
use std::fmt::Write;

/// The name behind the text.
pub fn put_name(text: &mut String, name: &Name) -> Result<(), AllocError> {
    for byte in name.iter() {
        text.push(*byte as char)?;
    }
    Ok(())
}

/// The number behind the text.
fn put_number(text: &mut String, number: u32) -> Result<(), AllocError> {
    match write!(text, "{number}") {
        Ok(()) => Ok(()),
        Err(_) => Err(AllocError),
    }
}

/// The term behind the text. A bound variable is `#` and its number, an abstraction `%` with the name and then its body.
pub fn put_term(text: &mut String, t: &Term) -> Result<(), AllocError> {
    match t.view() {
        TermNode::Const(name, _) => put_name(text, name),
        TermNode::Free(name, _) => put_name(text, name),
        TermNode::Unknown(name, number, _) => {
            text.push('?')?;
            put_name(text, name)?;
            text.push('.')?;
            put_number(text, *number)
        }
        TermNode::Bound(number) => {
            text.push('#')?;
            put_number(text, *number)
        }
        TermNode::Abs(name, _, body) => {
            text.push('%')?;
            put_name(text, name)?;
            text.push('.')?;
            put_term(text, body)
        }
        TermNode::App(fun, arg) => {
            text.push('(')?;
            put_term(text, fun)?;
            text.push(' ')?;
            put_term(text, arg)?;
            text.push(')')
        }
    }
}
