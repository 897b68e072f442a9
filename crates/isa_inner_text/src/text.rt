//! Texts.
ghost use Rattle.isa_inner_text.specs.Texts.{Answers, AnswersType};

use crate::reading::whole;
use crate::refusal::Refusal;
use crate::refusing::type_refused;
use crate::signature::Signature;
use crate::tokens::tokens;
use isa_inner_tokens::words;
use isa_inner_types::{Fail, read_whole_type};
use isa_raw::RawTerm;
use isa_terms::Typ;
use std::alloc::Global;

/// Reads a text that is a proposition; unknowns may stand in it where it is schematic. Otherwise the answer is the first
/// cause in reading order for which the text is refused.
pub fn read_raw(
    alloc: Global,
    sig: &Signature,
    schematic: bool,
    text: &[u8],
) -> Result<RawTerm, Refusal>
    ensures { Answers sig.now schematic text.now result }
{
    let words = words(alloc, sig.signs(), text)?;
    let tokens = tokens(alloc, sig, schematic, words.as_slice())?;
    let part = whole(alloc, sig, tokens.as_slice())?;
    Ok(part.term)
}

/// Reads a text that is a type, likewise.
pub fn read_typ(
    alloc: Global,
    sig: &Signature,
    schematic: bool,
    text: &[u8],
) -> Result<Typ, Refusal>
    ensures { AnswersType sig.now schematic text.now result }
{
    let words = words(alloc, sig.signs(), text)?;
    let tokens = tokens(alloc, sig, schematic, words.as_slice())?;
    match read_whole_type(alloc, tokens.as_slice()) {
        Ok(typ) => Ok(typ),
        Err(Fail::Memory) => Err(Refusal::Memory),
        Err(Fail::Refused(why, at)) => Err(type_refused(alloc, why, at)),
    }
}
