//! Single tokens, and why one that is not wanted is refused.
ghost use Rattle.std.specs.Prelude.{◌≡◌, ◌≢◌, ◌<◌, ◌∷◌, [], ℕ, List, length, MatchResult, IfOk, IfNone, IfSome};
ghost use Rattle.isa_inner.specs.Priorities.{mark_code};
ghost use Rattle.isa_inner_text.specs.declared.refusal.Refusal.TheVariants as refusal;
ghost use Rattle.isa_inner_types.specs.declared.token.TermToken.TheVariants as term;
ghost use Rattle.isa_inner_types.specs.declared.token.TextToken.TheVariants as token;
ghost use Rattle.isa_inner_text.specs.Reading.{Step, Ends, Refused, type_expected, operand_expected, why, constructor, type_why, mark_at, starts, behind_first, expect, expect_name, expect_arrow, begins, is_met, is_variable};
ghost use Rattle.isa_inner_text.specs.Private.Answers.{IsThe, IsNoInfix, IsTypeCause};

use crate::refusal::{Expected, Refusal};
use isa_inner::{InfixSign, Mark, Wanted};
use isa_inner_types::{Fail, TermToken, TextToken, TypeRefusal, TypeWanted};
use isa_terms::Name;
use std::alloc::Global;

/// The priority of names and of what stands in parentheses.
pub(crate) const CLOSED: u64 = 1000;

/// The first token, and those behind it.
pub(crate) fn next(tokens: &[TextToken]) -> Option<(&TextToken, &[TextToken])>
    ensures none { IfNone result (tokens.now ≡ []) }
    ensures first { IfSome result (λ next. tokens.now ≡ next.0.now ∷ next.1.now) }
{
    tokens.split_first()
}

/// The tokens behind the first one.
pub(crate) fn behind_first(tokens: &[TextToken]) -> &[TextToken]
    ensures { result.now ≡ behind_first tokens.now }
{
    match next(tokens) {
        None => tokens,
        Some((_, rest)) => rest,
    }
}

/// What a type needs next.
fn type_expected(wanted: TypeWanted) -> Expected
    ensures { result ≡ type_expected wanted }
{
    match wanted {
        TypeWanted::Type => Expected::Type,
        TypeWanted::Name => Expected::Name,
        TypeWanted::Close => Expected::Mark(Mark::Close),
        TypeWanted::CloseList => Expected::CloseList,
        TypeWanted::Arrow => Expected::Arrow,
        TypeWanted::EndOfText => Expected::EndOfText,
    }
}

/// What is expected where an operand is wanted.
pub(crate) fn operand_expected(wanted: Wanted) -> Expected
    ensures { result ≡ operand_expected wanted }
{
    match wanted {
        Wanted::Proposition => Expected::Proposition,
        Wanted::Term => Expected::Term,
        Wanted::Name => Expected::Term,
        Wanted::Type => Expected::Term,
        Wanted::This(_) => Expected::Term,
        Wanted::EndOfText => Expected::Term,
    }
}

/// A symbol that begins no token.
fn unknown_symbol(symbol: &Name) -> Refusal
    ensures { IsThe (refusal.UnknownSymbol symbol.now) result }
{
    match symbol.copy() {
        Ok(symbol) => Refusal::UnknownSymbol(symbol),
        Err(_) => Refusal::Memory,
    }
}

/// An unknown where none may stand.
fn schematic(name: &Name) -> Refusal
    ensures { IsThe (refusal.Schematic name.now) result }
{
    match name.copy() {
        Ok(name) => Refusal::Schematic(name),
        Err(_) => Refusal::Memory,
    }
}

/// Why these tokens are refused, where this is wanted.
pub(crate) fn refused(expected: Expected, tokens: &[TextToken]) -> Refusal
    ensures { IsThe (why expected tokens.now) result }
{
    match next(tokens) {
        None => Refusal::Expected(expected),
        Some((TextToken::Other(other), _)) => match other {
            TermToken::Symbol(symbol) => unknown_symbol(symbol),
            TermToken::Schematic(name) => schematic(name),
            _ => Refusal::Expected(expected),
        },
        Some(_) => Refusal::Expected(expected),
    }
}

/// The name of the type constructor that comes next.
fn constructor(alloc: Global, tokens: &[TextToken]) -> Result<Name, Refusal>
    ensures { MatchResult result (λ name. name ≡ constructor tokens.now) (λ why. why ≡ refusal.Memory) }
{
    match next(tokens) {
        None => Ok(Name::new(alloc)),
        Some((TextToken::Name(name, _), _)) => Ok(name.copy()?),
        Some(_) => Ok(Name::new(alloc)),
    }
}

/// Why a type is refused, at the tokens from its place on.
pub(crate) fn type_refused(alloc: Global, why: TypeRefusal, tokens: &[TextToken]) -> Refusal
    ensures { IsThe (type_why why tokens.now) result }
{
    match why {
        TypeRefusal::Expected(wanted) => refused(type_expected(wanted), tokens),
        TypeRefusal::Undeclared => match constructor(alloc, tokens) {
            Ok(name) => Refusal::UnknownType(name),
            Err(_) => Refusal::Memory,
        },
        TypeRefusal::Arity => match constructor(alloc, tokens) {
            Ok(name) => Refusal::Arity(name),
            Err(_) => Refusal::Memory,
        },
        TypeRefusal::Deep => Refusal::Deep,
        TypeRefusal::Met(_) => Refusal::Expected(Expected::Type),
    }
}

/// Why a type is not read.
pub(crate) fn type_cause(alloc: Global, fail: Fail<'_>) -> Refusal
    ensures { IsTypeCause fail.entry result }
{
    match fail {
        Fail::Memory => Refusal::Memory,
        Fail::Refused(why, at) => type_refused(alloc, why, at),
    }
}

/// The punctuation that comes next.
fn mark_at(tokens: &[TextToken]) -> Option<Mark>
    ensures { result ≡ mark_at tokens.now }
{
    match next(tokens) {
        None => None,
        Some((TextToken::Open, _)) => Some(Mark::Open),
        Some((TextToken::Close, _)) => Some(Mark::Close),
        Some((TextToken::Other(other), _)) => match other {
            TermToken::Dot => Some(Mark::Dot),
            TermToken::Colons => Some(Mark::Colons),
            TermToken::OpenPremises => Some(Mark::OpenPremises),
            TermToken::Semicolon => Some(Mark::Semicolon),
            TermToken::ClosePremises => Some(Mark::ClosePremises),
            _ => None,
        },
        Some(_) => None,
    }
}

/// Whether this punctuation comes next.
pub(crate) fn starts(mark: Mark, tokens: &[TextToken]) -> bool
    ensures { result ≡ starts mark tokens.now }
{
    match mark_at(tokens) {
        None => false,
        Some(other) => other.code() == mark.code(),
    }
}

/// Whether what comes next is refused as soon as it is met.
pub(crate) fn is_met(tokens: &[TextToken]) -> bool
    ensures { result ≡ is_met tokens.now }
{
    match next(tokens) {
        None => false,
        Some((TextToken::Other(other), _)) => match other {
            TermToken::Symbol(_) => true,
            TermToken::Schematic(_) => true,
            _ => false,
        },
        Some(_) => false,
    }
}

/// Whether a further variable of a binder comes next.
pub(crate) fn is_variable(tokens: &[TextToken]) -> bool
    ensures { result ≡ is_variable tokens.now }
{
    match next(tokens) {
        None => false,
        Some((TextToken::Name(_, _), _)) => true,
        Some((TextToken::Open, _)) => true,
        Some(_) => false,
    }
}

/// Whether an operand of this priority or more begins so.
pub(crate) fn begins(least: u64, tokens: &[TextToken]) -> bool
    ensures { result ≡ begins least tokens.now }
{
    match next(tokens) {
        None => false,
        Some((TextToken::Name(_, _), _)) => least <= CLOSED,
        Some((TextToken::Open, _)) => least <= CLOSED,
        Some((TextToken::Other(other), _)) => match other {
            TermToken::Unknown(_) => least <= CLOSED,
            TermToken::OpenPremises => least <= 1,
            TermToken::Prefix(sign) => least <= sign.own(),
            TermToken::Binder(sign) => least <= sign.own(),
            _ => false,
        },
        Some(_) => false,
    }
}

/// The operator between two operands that comes next, and the tokens behind it.
pub(crate) fn infix_next(tokens: &[TextToken]) -> Option<(InfixSign, &[TextToken])>
    ensures none { IfNone result (IsNoInfix tokens.now) }
    ensures found { IfSome result (λ next. tokens.now ≡ token.Other (term.Infix next.0) ∷ next.1.now) }
{
    match next(tokens) {
        None => None,
        Some((TextToken::Other(other), rest)) => match other {
            TermToken::Infix(sign) => Some((*sign, rest)),
            _ => None,
        },
        Some(_) => None,
    }
}

/// The tokens behind this punctuation, which comes next.
pub(crate) fn expect<'a>(mark: Mark, tokens: &'a [TextToken]) -> Result<&'a [TextToken], Refusal>
    ensures found { MatchResult result
        (λ rest. (go : List TextToken → Step) → expect mark tokens.now go ≡ go rest.now)
        (λ cause. cause ≢ refusal.Memory → (go : List TextToken → Step) → expect mark tokens.now go ≡ Ends (Refused cause)) }
    ensures shorter { IfOk result (λ rest. length rest.now < length tokens.now) }
{
    if !starts(mark, tokens) {
        return Err(refused(Expected::Mark(mark), tokens));
    }
    Ok(behind_first(tokens))
}

/// The name that comes next, and the tokens behind it.
pub(crate) fn expect_name<'a>(tokens: &'a [TextToken]) -> Result<(Name, &'a [TextToken]), Refusal>
    ensures found { MatchResult result
        (λ found. (go : List ℕ → List TextToken → Step) → expect_name tokens.now go ≡ go found.0 found.1.now)
        (λ cause. cause ≢ refusal.Memory → (go : List ℕ → List TextToken → Step) → expect_name tokens.now go ≡ Ends (Refused cause)) }
    ensures shorter { IfOk result (λ found. length found.1.now < length tokens.now) }
{
    match next(tokens) {
        None => Err(refused(Expected::Name, tokens)),
        Some((TextToken::Name(name, _), rest)) => Ok((name.copy()?, rest)),
        Some(_) => Err(refused(Expected::Name, tokens)),
    }
}

/// The tokens behind `==>`, which comes next.
pub(crate) fn expect_arrow<'a>(tokens: &'a [TextToken]) -> Result<&'a [TextToken], Refusal>
    ensures found { MatchResult result
        (λ rest. (go : List TextToken → Step) → expect_arrow tokens.now go ≡ go rest.now)
        (λ cause. cause ≢ refusal.Memory → (go : List TextToken → Step) → expect_arrow tokens.now go ≡ Ends (Refused cause)) }
    ensures shorter { IfOk result (λ rest. length rest.now < length tokens.now) }
{
    match infix_next(tokens) {
        Some((InfixSign::Implies, rest)) => Ok(rest),
        _ => Err(refused(Expected::Implies, tokens)),
    }
}
