//! Texts, and what they tell.
ghost use Rattle.std.specs.Prelude.{◌≡◌, MatchResult};
ghost use Rattle.isa_typing.specs.Principal.{Infers};
ghost use Rattle.isa_raw.specs.RawTerms.{RawTyped};
ghost use Rattle.isa_kernel.specs.Logic.{prop};
ghost use Rattle.isa_syntax.specs.Reading.{Answers, TellsProp, TellsType, types_of};
ghost use Rattle.isa_syntax.specs.Private.Typed.{IsInferred};

use crate::refusal::kind_of;
use crate::syntax::Syntax;
use isa_inner_text::{read_raw, read_typ};
use isa_kernel::prop_type;
use isa_outer::Kind;
use isa_raw::{RawNode, RawTerm};
use isa_terms::{Term, Typ};
use isa_typing::{InferError, infer};
use std::alloc::Global;

/// The principal term of what is read, as a proposition.
fn principal(alloc: Global, syntax: &Syntax, raw: RawTerm) -> Result<Term, Kind>
    ensures { IsInferred (types_of syntax.now) (RawTyped raw prop) result }
{
    let typed = RawTerm::new(alloc, RawNode::Typed(raw, prop_type(alloc)?))?;
    match infer(alloc, syntax.constants(), &typed) {
        Ok(term) => Ok(term),
        Err(InferError::Types) => Err(Kind::Types),
        Err(InferError::Memory) => Err(Kind::Memory),
    }
}

/// The proposition that a text tells: the principal term of what is read, in normal form; unknowns may stand in the text
/// where it is schematic. Otherwise the first cause in reading order for which the text is refused, `Types` behind all others.
#[tactic(auto, using(crate::proofs::Telling::inferred_tells, crate::proofs::Telling::refusal_tells))]
pub fn read_prop(alloc: Global, syntax: &Syntax, schematic: bool, text: &[u8]) -> Result<Term, Kind>
    ensures { Answers (TellsProp syntax.now schematic text.now) result }
{
    match read_raw(alloc, syntax.signature(), schematic, text) {
        Ok(raw) => principal(alloc, syntax, raw),
        Err(refusal) => Err(kind_of(refusal)),
    }
}

/// The type that a text tells, or the first cause for which it is refused; unknowns may stand in it where it is schematic.
#[tactic(auto, using(crate::proofs::Telling::type_tells, crate::proofs::Telling::type_refusal_tells))]
pub fn read_type(alloc: Global, syntax: &Syntax, schematic: bool, text: &[u8]) -> Result<Typ, Kind>
    ensures { Answers (TellsType syntax.now schematic text.now) result }
{
    match read_typ(alloc, syntax.signature(), schematic, text) {
        Ok(typ) => Ok(typ),
        Err(refusal) => Err(kind_of(refusal)),
    }
}
