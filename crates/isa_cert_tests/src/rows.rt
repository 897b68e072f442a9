//! What checking a text answers.
use crate::printing::{put_name, put_term};
use crate::texts::plain;
use isa_cert::{Accepted, CertFail, check_cert};
use std::alloc::{AllocError, Global};

/// The answer for the beginning with the row's text behind it.
pub fn answer(alloc: Global, beginning: &[u8], text: &str) -> Result<String, AllocError> {
    let mut bytes = Vec::new(alloc);
    bytes.extend_from_slice(beginning)?;
    let behind = plain(alloc, text.as_bytes())?;
    bytes.extend_from_slice(behind.as_slice())?;
    match check_cert(alloc, bytes.as_slice()) {
        Ok(theorems) => accepted(alloc, theorems.as_slice()),
        Err(CertFail::Form(line)) => format!(in alloc; "form {line}"),
        Err(CertFail::Typed(line)) => format!(in alloc; "typed {line}"),
        Err(CertFail::Step(line)) => format!(in alloc; "step {line}"),
        Err(CertFail::NoEnd) => format!(in alloc; "no end"),
        Err(CertFail::Memory) => Err(AllocError),
    }
}

/// The theorems, each with its name, the names of its axioms and what it states.
fn accepted(alloc: Global, theorems: &[Accepted]) -> Result<String, AllocError> {
    let mut text = String::new(alloc);
    text.push_str("proves")?;
    for theorem in theorems {
        text.push(' ')?;
        put_accepted(&mut text, theorem)?;
    }
    Ok(text)
}

fn put_accepted(text: &mut String, theorem: &Accepted) -> Result<(), AllocError> {
    put_name(text, &theorem.name)?;
    for axiom in theorem.axioms.as_slice() {
        text.push(',')?;
        put_name(text, &axiom.name)?;
    }
    text.push(':')?;
    put_term(text, &theorem.prop)
}
