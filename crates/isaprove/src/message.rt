//! The lines that say why a run does not go on.
ghost use Rattle.std.specs.Prelude.{◌≡◌, ◌++◌, IfOk, OnOk, codes, string_bytes};
ghost use Rattle.isa_outer.specs.Refusals.{text_of};
ghost use Rattle.isaprove.specs.Run.{place_text, failure_text, failure_line, refusal_line};

use crate::failure::Failure;
use isa_outer::Kind;
use std::alloc::{AllocError, Global};

/// `FILE:LINE: `
fn place_text(alloc: Global, file: &str, line: u64) -> Result<String, AllocError>
    ensures { IfOk result (λ s. string_bytes s ≡ place_text file.now line) }
{
    format!(in alloc; "{file}:{line}: ")
}

/// `no result`, with the number of unifications outside of patterns where there were some.
fn no_result_text(alloc: Global, outside: u64) -> Result<String, AllocError>
    ensures { IfOk result (λ s. string_bytes s ≡ failure_text (Failure.NoResult outside)) }
{
    if outside == 0 {
        String::from_str(alloc, "no result")
    } else {
        format!(in alloc; "no result (outside patterns: {outside})")
    }
}

/// Why a method gave no state.
fn failure_text(alloc: Global, failure: Failure) -> Result<String, AllocError>
    ensures { IfOk result (λ s. string_bytes s ≡ failure_text failure) }
{
    match failure {
        Failure::NoResult(outside) => no_result_text(alloc, outside),
        Failure::Spent(budget) => format!(in alloc; "budget of {budget} spent"),
    }
}

/// `FILE:LINE: ` and why a method gave no state, with a line feed.
#[tactic(auto, unfolding(crate::specs::Run::failure_line))]
pub fn failure_line(
    alloc: Global,
    file: &str,
    line: u64,
    failure: Failure,
) -> Result<Vec<u8>, AllocError>
    ensures { IfOk result (λ text. text.items ≡ failure_line file.now line failure) }
{
    let place = place_text(alloc, file, line)?;
    let cause = failure_text(alloc, failure)?;
    let mut text = Vec::from_slice(alloc, place.as_bytes())?;
    text.extend_from_slice(cause.as_bytes())?;
    text.extend_from_slice(b"\n")?;
    Ok(text)
}

/// `FILE:LINE: ` and the text of a refusal, with a line feed.
#[tactic(auto, unfolding(crate::specs::Run::refusal_line))]
pub fn refusal_line(
    alloc: Global,
    file: &str,
    line: u64,
    kind: &Kind,
) -> Result<Vec<u8>, AllocError>
    ensures { IfOk result (λ text. text.items ≡ refusal_line file.now line kind.now) }
{
    let place = place_text(alloc, file, line)?;
    let mut text = Vec::from_slice(alloc, place.as_bytes())?;
    kind.write_text(&mut text)?;
    text.extend_from_slice(b"\n")?;
    Ok(text)
}

/// `NAME` and a text about the whole file, with a line feed.
pub fn file_line(alloc: Global, name: &str, text: &str) -> Result<Vec<u8>, AllocError>
    ensures { IfOk result (λ line. line.items ≡ name.now ++ text.now ++ codes "\n") }
{
    let mut line = Vec::from_slice(alloc, name.as_bytes())?;
    line.extend_from_slice(text.as_bytes())?;
    line.extend_from_slice(b"\n")?;
    Ok(line)
}
