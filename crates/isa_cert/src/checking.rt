//! Checking a text of certificates.
ghost use Rattle.std.specs.Prelude.{◌≡◌, ◌∷◌, IfOk, nat_eq, false};
ghost use Rattle.std.specs.List.{slice_split};
ghost use Rattle.isa_cert.specs.Checking.{empty, taken_from, checked, checked_lines, AreProved};
ghost use Rattle.isa_cert.specs.Answered.{refusal_at, Takes, Answered};

use crate::accepting::certs;
use crate::certs::Certs;
use crate::fail::LineFail;
use crate::reader::is_word;
use crate::table::Table;
use crate::taking::take_text;
use crate::words::split;
use std::alloc::{AllocError, Global};

/// Why a text is refused: the first line that fails, counted from 1.
#[derive(Debug, Drop)]
pub enum CertFail {
    /// That line has none of the forms, or names what isn't there.
    Form(u64),
    /// A term that it names has no type, or an axiom is no proposition.
    Typed(u64),
    /// An inference's condition fails, or an end has hypotheses.
    Step(u64),
    /// The text does not close with an end.
    NoEnd,
    /// Memory ran out.
    Memory,
}

impl From<AllocError> for CertFail {
    ghost use Rattle.isa_cert.specs.declared.checking.CertFail.TheVariants.{Memory};

    ghost from_gives = { λ _ e. e ≡ Memory };

    fn from(_: AllocError) -> CertFail {
        CertFail::Memory
    }
}

/// The refusal of a text whose line of that number fails.
fn refusal(number: u64, fail: LineFail) -> CertFail
    ensures { result ≡ refusal_at number fail }
{
    match fail {
        LineFail::Form => CertFail::Form(number),
        LineFail::Typed => CertFail::Typed(number),
        LineFail::Step => CertFail::Step(number),
        LineFail::Memory => CertFail::Memory,
    }
}

/// What the lines behind the header give.
#[tactic(auto, using(crate::proofs::CertLines::line_taken, crate::proofs::CertLines::ends_behind, crate::proofs::CertLines::ends_here))]
fn check_lines(alloc: Global, text: &[u8]) -> Result<Table, CertFail>
    ensures { Takes result (taken_from 2 empty false (slice_split (λ b. nat_eq b 10) text.now)) }
{
    let mut table = Table::new(alloc)?;
    let mut ended = false;
    let mut number: u64 = 2;
    let mut rest = text;
    while let Some((line, behind)) = split(rest, b'\n') {
        match take_text(alloc, &mut table, line) {
            Ok(is_end) => ended = is_end,
            Err(fail) => return Err(refusal(number, fail)),
        }
        // No text in memory has so many lines that the sum does not fit.
        let later = number.checked_add(1).ok_or(CertFail::Memory)?;
        number = later;
        rest = behind;
    }
    if !rest.is_empty() {
        return Err(CertFail::Form(number));
    }
    if !ended {
        return Err(CertFail::NoEnd);
    }
    Ok(table)
}

/// What the lines behind a header prove.
fn check_behind(alloc: Global, header: &[u8], lines: &[u8]) -> Result<Certs, CertFail>
    ensures { Answered result (checked_lines (header.now ∷ slice_split (λ b. nat_eq b 10) lines.now)) }
{
    if !is_word(header, "isacert 1") {
        return Err(CertFail::Form(1));
    }
    let table = check_lines(alloc, lines)?;
    Ok(certs(alloc, table.ends.as_slice())?)
}

/// What a text proves.
fn check_text(alloc: Global, text: &[u8]) -> Result<Certs, CertFail>
    ensures { Answered result (checked text.now) }
{
    if text.is_empty() {
        return Ok(Certs::new(alloc));
    }
    match split(text, b'\n') {
        None => Err(CertFail::Form(1)),
        Some((header, lines)) => check_behind(alloc, header, lines),
    }
}

/// What a text of certificates proves, or the first line that is refused.
pub fn check_cert(alloc: Global, text: &[u8]) -> Result<Certs, CertFail>
    ensures answer { Answered result (checked text.now) }
    ensures proved { IfOk result (λ list. AreProved list) }
{
    check_text(alloc, text)
}
