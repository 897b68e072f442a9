//! Rows of the table.

use crate::fault::Fault;
use crate::printing::put_term;
use crate::raw_terms::raw_term;
use crate::types::typ;
use indexmap::IndexMap;
use isa_terms::{Name, Typ};
use isa_typing::{InferError, infer};
use std::alloc::Global;

/// Declares the constant of those words, `NAME TYPE`.
fn declare(alloc: Global, constants: &mut IndexMap<Name, Typ>, text: &str) -> Result<(), Fault> {
    let (name, letters) = text.split_once(' ').ok_or(Fault::Words)?;
    let name = Name::from_text(alloc, name)?;
    let general = typ(alloc, letters)?;
    if constants.insert(name, general).is_err() {
        return Err(Fault::Memory);
    }
    Ok(())
}

/// The principal term of those words, or the refusal.
fn inferred(alloc: Global, constants: &IndexMap<Name, Typ>, text: &str) -> Result<String, Fault> {
    let raw = raw_term(alloc, text)?;
    let mut answer = String::new(alloc);
    match infer(alloc, constants, &raw) {
        Ok(t) => put_term(&mut answer, &t)?,
        Err(InferError::Types) => answer.push_str("types")?,
        Err(InferError::Memory) => return Err(Fault::Memory),
    }
    Ok(answer)
}

/// What the row wants and what its call answers, of a row with a call.
pub fn answer<'t>(
    alloc: Global,
    constants: &mut IndexMap<Name, Typ>,
    line: &'t str,
) -> Result<Option<(&'t str, String)>, Fault> {
    if let Some(declaration) = line.strip_prefix("const ") {
        declare(alloc, constants, declaration)?;
        return Ok(None);
    }
    match line.split_once(" | ") {
        None => Ok(None),
        Some((wanted, text)) => Ok(Some((wanted, inferred(alloc, constants, text)?))),
    }
}
