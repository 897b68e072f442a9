//! What the commands of a row answer.
use crate::commands::take;
use isa_outer::read_commands;
use isa_theory::Context;
use std::alloc::{AllocError, Global};

/// The text with a line feed for each `\n`, and one at its end.
fn with_lines(alloc: Global, text: &str) -> Result<String, AllocError> {
    let mut lines = String::new(alloc);
    for line in text.split("\\n") {
        lines.push_str(line)?;
        lines.push('\n')?;
    }
    Ok(lines)
}

/// The number of commands, or the refusals in their order. A command that is refused is left out, and the next ones follow.
fn taken(alloc: Global, context: &mut Context, text: &str) -> Result<String, AllocError> {
    let commands = match read_commands(alloc, text.as_bytes()) {
        Ok(commands) => commands,
        Err(refused) => return format!(in alloc; "unread {refused}"),
    };
    let mut refusals = String::new(alloc);
    for command in commands.as_slice() {
        if let Err(refused) = take(alloc, context, command) {
            let separator = if refusals.is_empty() { "" } else { "; " };
            refusals = format!(in alloc; "{refusals}{separator}{refused}")?;
        }
    }
    if refusals.is_empty() {
        let count = commands.as_slice().len();
        return format!(in alloc; "taken {count}");
    }
    Ok(refusals)
}

/// How many theorems are declared by attributes, and how many lemmas are closed.
fn kept(alloc: Global, context: &Context) -> Result<String, AllocError> {
    let declared = context.declarations().len();
    let closed = context.lemmas().len();
    format!(in alloc; "kept {declared} declared, {closed} closed")
}

/// What the commands of the text answer, behind those of another text, in the form of what is wanted.
pub fn answer(alloc: Global, before: &str, wanted: &str, text: &str) -> Result<String, AllocError> {
    let mut context = Context::new(alloc)?;
    let first = taken(alloc, &mut context, before)?;
    if !first.as_str().starts_with("taken") {
        return Ok(first);
    }
    let text = with_lines(alloc, text)?;
    let answer = taken(alloc, &mut context, text.as_str())?;
    if wanted.starts_with("kept") {
        kept(alloc, &context)
    } else {
        Ok(answer)
    }
}
