//! What the calls of a table answer.
use crate::declaring::declare_all;
use crate::expanding::expanded;
use crate::fault::Fault;
use crate::printing::{put_term, put_typ};
use isa_outer::Kind;
use isa_syntax::{Syntax, read_prop, read_type};
use isa_terms::size;
use std::alloc::{AllocError, Global};

/// A refusal's text.
fn refusal(alloc: Global, kind: &Kind) -> Result<String, AllocError> {
    format!(in alloc; "{kind}")
}

/// The proposition that a text tells, or why it is refused.
fn prop(
    alloc: Global,
    syntax: &Syntax,
    schematic: bool,
    text: &[u8],
) -> Result<String, AllocError> {
    match read_prop(alloc, syntax, schematic, text) {
        Ok(term) => {
            let mut words = String::new(alloc);
            put_term(&mut words, &term)?;
            Ok(words)
        }
        Err(kind) => refusal(alloc, &kind),
    }
}

/// How large the proposition is that a text tells, or why it is refused.
fn nodes(alloc: Global, syntax: &Syntax, text: &[u8]) -> Result<String, AllocError> {
    match read_prop(alloc, syntax, true, text) {
        Ok(term) => {
            let count = size(&term);
            format!(in alloc; "{count}")
        }
        Err(kind) => refusal(alloc, &kind),
    }
}

/// The type that a text tells, or why it is refused.
fn typ(alloc: Global, syntax: &Syntax, schematic: bool, text: &[u8]) -> Result<String, AllocError> {
    match read_type(alloc, syntax, schematic, text) {
        Ok(typ) => {
            let mut words = String::new(alloc);
            put_typ(&mut words, &typ)?;
            Ok(words)
        }
        Err(kind) => refusal(alloc, &kind),
    }
}

/// Whether the commands of a text declare something, which is taken back, or why one is refused.
fn tried(alloc: Global, syntax: &mut Syntax, text: &[u8]) -> Result<String, AllocError> {
    let mark = syntax.mark();
    match declare_all(alloc, syntax, text) {
        Ok(()) => {
            syntax.undo_to(mark);
            format!(in alloc; "declared")
        }
        Err(Fault::Refused(kind)) => refusal(alloc, &kind),
        Err(Fault::Line) => format!(in alloc; "no declaration"),
        Err(Fault::Memory) => Err(AllocError),
    }
}

/// The answer of a call.
pub fn answer(alloc: Global, syntax: &mut Syntax, call: &str) -> Result<String, AllocError> {
    let Some((word, row)) = call.split_once(" ") else {
        return format!(in alloc; "no call");
    };
    let text = expanded(alloc, row)?;
    match word {
        "prop" => prop(alloc, syntax, false, text.as_slice()),
        "schematic" => prop(alloc, syntax, true, text.as_slice()),
        "size" => nodes(alloc, syntax, text.as_slice()),
        "type" => typ(alloc, syntax, false, text.as_slice()),
        "schematic_type" => typ(alloc, syntax, true, text.as_slice()),
        "try" => tried(alloc, syntax, text.as_slice()),
        _ => format!(in alloc; "no call"),
    }
}
