//! Single tokens.
ghost use Rattle.std.specs.Prelude.{◌≡◌, ◌∷◌, [], ℕ, ◌<◌, ◌≤◌, ◌^◌, length, IfSome, IfNone, IfOk};
ghost use Rattle.isa_outer.specs.Forms.{refusal_at, missing, Refuses, read, begins, unlisted, unlisted_word, Got, number_from, number, one};
ghost use Rattle.isa_outer.specs.Grammar.{word, sign, colons, inner, is_numbered, takes_name};
ghost use Rattle.isa_outer.specs.Private.Answers.{Finds, Answers, AnswersExactly, IsThe};

use crate::command::Inner;
use crate::refusal::{Kind, Sort, What};
use isa_terms::{Name, Text};
use isa_tokens::{Fault, Lexeme, Token};
use std::alloc::{AllocError, Global};

/// The tokens behind this word, where it stands here.
pub(crate) fn word<'a, 't>(text: &str, tokens: &'a [Token<'t>]) -> Option<&'a [Token<'t>]>
    ensures { Finds result text.now (word text.now) tokens.now }
{
    let (first, rest) = tokens.split_first()?;
    match &first.lexeme {
        Lexeme::Name(name) if name.as_slice() == text.as_bytes() => Some(rest),
        _ => None,
    }
}

/// The tokens behind this byte, where it stands here.
pub(crate) fn sign<'a, 't>(byte: u8, tokens: &'a [Token<'t>]) -> Option<&'a [Token<'t>]>
    ensures { Finds result (byte ∷ []) (sign byte) tokens.now }
{
    let (first, rest) = tokens.split_first()?;
    match &first.lexeme {
        Lexeme::Sign(b) if *b == byte => Some(rest),
        _ => None,
    }
}

pub(crate) fn cause_at(what: &'static str, lexeme: &Lexeme<'_>) -> Kind
    ensures { result ≡ refusal_at what.now lexeme.now }
{
    match lexeme {
        Lexeme::Broken(Fault::Byte) => Kind::Byte,
        Lexeme::Broken(Fault::OpenComment) => Kind::OpenComment,
        Lexeme::Broken(Fault::OpenText) => Kind::OpenText,
        Lexeme::Broken(Fault::Deep) => Kind::Deep,
        _ => Kind::Expected(What::new(what)),
    }
}

/// The refusal of what stands here.
pub(crate) fn expected(what: &'static str, tokens: &[Token<'_>]) -> Kind
    ensures { result ≡ missing what.now tokens.now }
{
    match tokens.split_first() {
        None => Kind::Expected(What::new(what)),
        Some((first, _)) => cause_at(what, &first.lexeme),
    }
}

/// The tokens behind this byte.
pub(crate) fn expect_sign<'a, 't>(
    byte: u8,
    text: &'static str,
    tokens: &'a [Token<'t>],
) -> Result<((), &'a [Token<'t>]), Kind>
    requires { text.now ≡ byte ∷ [] }
    ensures { Answers result (sign byte) tokens.now }
{
    match sign(byte, tokens) {
        Some(rest) => Ok(((), rest)),
        None => Err(expected(text, tokens)),
    }
}

/// The tokens behind this word.
pub(crate) fn expect_word<'a, 't>(
    text: &'static str,
    tokens: &'a [Token<'t>],
) -> Result<((), &'a [Token<'t>]), Kind>
    ensures { Answers result (word text.now) tokens.now }
{
    match word(text, tokens) {
        Some(rest) => Ok(((), rest)),
        None => Err(expected(text, tokens)),
    }
}

/// The refusal of what stands here, where none of the words does that the sort has.
pub(crate) fn unlisted(alloc: Global, sort: Sort, what: &'static str, tokens: &[Token<'_>]) -> Kind
    ensures { IsThe (unlisted sort what.now [] tokens.now) result }
{
    match tokens.split_first() {
        None => Kind::Expected(What::new(what)),
        Some((first, _)) => unlisted_word(alloc, sort, what, &first.lexeme),
    }
}

fn unlisted_word(alloc: Global, sort: Sort, what: &'static str, lexeme: &Lexeme<'_>) -> Kind
    ensures { IsThe (unlisted_word sort what.now [] lexeme.now) result }
{
    match lexeme {
        Lexeme::Name(name) => match Name::from_bytes(alloc, name.as_slice()) {
            Ok(name) => Kind::Unknown(sort, name),
            Err(_) => Kind::Memory,
        },
        _ => cause_at(what, lexeme),
    }
}

/// The number that the digits write, where it is below 2^32.
#[tactic(auto, using(crate::proofs::Numbers::number_grows))]
fn number_of(digits: &[u8]) -> Option<u32>
    ensures some { IfSome result (λ n. n ≡ number_from 0 digits.now) }
    ensures none { IfNone result (2 ^ 32 ≤ number_from 0 digits.now) }
{
    let mut number = 0u64;
    for digit in digits {
        number = 10 * number + digit.saturating_sub(b'0') as u64;
        if number > u32::MAX as u64 {
            return None;
        }
    }
    Some(number as u32)
}

/// A number from `low` to `high`.
pub(crate) fn number<'a, 't>(
    low: u32,
    high: u32,
    tokens: &'a [Token<'t>],
) -> Result<(u32, &'a [Token<'t>]), Kind>
    ensures { Answers result (number low high) tokens.now }
{
    let Some((first, rest)) = tokens.split_first() else {
        return Err(Kind::Expected(What::new("number")));
    };
    match &first.lexeme {
        Lexeme::Number(digits) => match number_of(digits.as_slice()) {
            Some(number) if low <= number && number <= high => Ok((number, rest)),
            _ => Err(Kind::Number),
        },
        _ => Err(cause_at("number", &first.lexeme)),
    }
}

/// An identifier; `what` names it in a refusal.
pub(crate) fn identifier<'a, 't>(
    alloc: Global,
    what: &'static str,
    tokens: &'a [Token<'t>],
) -> Result<(Name, &'a [Token<'t>]), Kind>
    ensures { Answers result (one what.now takes_name) tokens.now }
{
    let Some((first, rest)) = tokens.split_first() else {
        return Err(Kind::Expected(What::new(what)));
    };
    match &first.lexeme {
        Lexeme::Name(name) => Ok((Name::from_bytes(alloc, name.as_slice())?, rest)),
        _ => Err(cause_at(what, &first.lexeme)),
    }
}

/// A text of these bytes.
fn text_of(alloc: Global, bytes: &[u8]) -> Result<Text, AllocError>
    ensures { IfOk result (λ t. t ≡ bytes.now) }
{
    let mut text = Text::new(alloc);
    for byte in bytes {
        text.push(*byte)?;
    }
    Ok(text)
}

/// A quoted text or an identifier, of the command on this line; `what` names it in a refusal.
pub(crate) fn inner<'a, 't>(
    alloc: Global,
    line: u64,
    what: &'static str,
    tokens: &'a [Token<'t>],
) -> Result<(Inner, &'a [Token<'t>]), Kind>
    ensures { Answers result (inner line what.now) tokens.now }
{
    let Some((first, rest)) = tokens.split_first() else {
        return Err(Kind::Expected(What::new(what)));
    };
    match &first.lexeme {
        Lexeme::Text(text) => Ok((
            Inner {
                line,
                bytes: text_of(alloc, text.as_slice())?,
            },
            rest,
        )),
        Lexeme::Name(name) => Ok((
            Inner {
                line,
                bytes: text_of(alloc, name.as_slice())?,
            },
            rest,
        )),
        _ => Err(cause_at(what, &first.lexeme)),
    }
}

/// The tokens behind this byte, with no want of memory.
pub(crate) fn expect_sign_exactly<'a, 't>(
    byte: u8,
    text: &'static str,
    tokens: &'a [Token<'t>],
) -> Result<((), &'a [Token<'t>]), Kind>
    requires { text.now ≡ byte ∷ [] }
    ensures { AnswersExactly result (sign byte) tokens.now }
{
    match sign(byte, tokens) {
        Some(rest) => Ok(((), rest)),
        None => Err(expected(text, tokens)),
    }
}

/// The tokens behind `::`.
pub(crate) fn expect_colons<'a, 't>(tokens: &'a [Token<'t>]) -> Result<((), &'a [Token<'t>]), Kind>
    ensures { Answers result colons tokens.now }
{
    let Some((first, rest)) = tokens.split_first() else {
        return Err(Kind::Expected(What::new("::")));
    };
    match &first.lexeme {
        Lexeme::Colons => Ok(((), rest)),
        _ => Err(cause_at("::", &first.lexeme)),
    }
}

/// Whether a number stands here, of these or others.
pub(crate) fn is_number<'a, 't>(_low: u32, _high: u32, tokens: &'a [Token<'t>]) -> bool
    ensures { result ≡ begins (number _low _high) tokens.now }
{
    match tokens.split_first() {
        None => false,
        Some((first, _)) => matches!(&first.lexeme, Lexeme::Number(_)),
    }
}

/// Whether the second token is a number.
pub(crate) fn is_numbered<'a, 't>(tokens: &'a [Token<'t>]) -> bool
    ensures { result ≡ is_numbered tokens.now }
{
    let Some((_, rest)) = tokens.split_first() else {
        return false;
    };
    match rest.split_first() {
        None => false,
        Some((second, _)) => matches!(&second.lexeme, Lexeme::Number(_)),
    }
}
