//! Commands, and lemmas that are closed at once.
use isa_kernel::{InferenceError, Thm, assume, implies_intr};
use isa_outer::{Command, Inner, Kind, Label, Refused};
use isa_terms::Term;
use isa_theory::Context;
use std::alloc::{AllocError, Global};

/// `A ==> A`
fn implied_by_itself(alloc: Global, a: &Term) -> Result<Thm, InferenceError> {
    let thm = assume(alloc, a)?;
    implies_intr(alloc, a, &thm)
}

/// Begins a lemma, and closes it with the theorem that its proposition implies itself.
fn close(
    alloc: Global,
    context: &mut Context,
    schematic: bool,
    label: Option<&Label>,
    text: &Inner,
) -> Result<(), Refused> {
    let line = text.line;
    let lemma = match context.lemma(alloc, schematic, label, text) {
        Ok(lemma) => lemma,
        Err(kind) => return Err(Refused { line, kind }),
    };
    let Ok(thm) = implied_by_itself(alloc, &lemma.goal) else {
        return Err(Refused {
            line,
            kind: Kind::Types,
        });
    };
    if !context.is_new_name(lemma.name.as_ref()) || !thm.hyps().is_empty() {
        return Err(AllocError.into());
    }
    context.store_lemma(alloc, &lemma, &thm)?;
    Ok(())
}

/// Takes the command; a lemma is closed at once.
pub fn take(alloc: Global, context: &mut Context, command: &Command) -> Result<(), Refused> {
    context.apply(alloc, command)?;
    match command {
        Command::Lemma { label, prop, .. } => close(alloc, context, false, label.as_ref(), prop),
        Command::SchematicGoal { label, prop, .. } => {
            close(alloc, context, true, label.as_ref(), prop)
        }
        _ => Ok(()),
    }
}
