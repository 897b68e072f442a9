//! Raw terms that words write.

use crate::fault::Fault;
use crate::types::typ;
use isa_terms::{Name, Typ};
use isa_typing::{RawNode, RawTerm};
use std::alloc::Global;

/// The binder of those words over the last term.
fn abstraction(alloc: Global, binder: &str, behind: &mut Vec<RawTerm>) -> Result<RawNode, Fault> {
    let (name, given) = match binder.split_once(':') {
        None => (binder, None),
        Some((name, letters)) => (name, Some(typ(alloc, letters)?)),
    };
    let name = Name::from_text(alloc, name)?;
    Ok(RawNode::Abs(name, given, behind.pop().ok_or(Fault::Words)?))
}

/// The last term, of the given type.
fn annotation(typ: Typ, behind: &mut Vec<RawTerm>) -> Result<RawNode, Fault> {
    Ok(RawNode::Typed(behind.pop().ok_or(Fault::Words)?, typ))
}

/// The last term applied to the one before it.
fn application(behind: &mut Vec<RawTerm>) -> Result<RawNode, Fault> {
    let fun = behind.pop().ok_or(Fault::Words)?;
    let arg = behind.pop().ok_or(Fault::Words)?;
    Ok(RawNode::App(fun, arg))
}

/// What the word makes of the terms behind it.
fn node(alloc: Global, word: &str, behind: &mut Vec<RawTerm>) -> Result<RawNode, Fault> {
    if word == "@" {
        return application(behind);
    }
    if let Some(binder) = word.strip_prefix('%') {
        return abstraction(alloc, binder, behind);
    }
    if let Some(letters) = word.strip_prefix(':') {
        return annotation(typ(alloc, letters)?, behind);
    }
    if let Some(name) = word.strip_prefix('?') {
        return Ok(RawNode::Unknown(Name::from_text(alloc, name)?));
    }
    if let Some(name) = word.strip_prefix('=') {
        return Ok(RawNode::Constant(Name::from_text(alloc, name)?));
    }
    Ok(RawNode::Name(Name::from_text(alloc, word)?))
}

/// The raw term that the words write, each before its parts.
pub fn raw_term(alloc: Global, text: &str) -> Result<RawTerm, Fault> {
    let mut words = Vec::new(alloc);
    for word in text.split(' ') {
        if words.push(word).is_err() {
            return Err(Fault::Memory);
        }
    }
    let mut behind = Vec::new(alloc);
    for word in words.iter().rev() {
        let raw = RawTerm::new(alloc, node(alloc, word, &mut behind)?)?;
        if behind.push(raw).is_err() {
            return Err(Fault::Memory);
        }
    }
    behind.pop().ok_or(Fault::Words)
}
