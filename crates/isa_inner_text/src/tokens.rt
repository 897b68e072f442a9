//! The tokens that words are.
ghost use Rattle.std.specs.Prelude.{◌≡◌, IfOk};
ghost use Rattle.isa_inner_text.specs.Signature.{name_token, mark_token, sign_token, type_mark_token, token_of, tokens_of};

use crate::signature::Signature;
use isa_inner::{Mark, Token};
use isa_inner_tokens::{Kind, Sign, TypeMark, Word};
use isa_inner_types::{TermToken, TextToken};
use isa_terms::Name;
use std::alloc::{AllocError, Global};

/// The token of a name.
fn name_token(
    sig: &Signature,
    schematic: bool,
    kind: Kind,
    name: &Name,
) -> Result<TextToken, AllocError>
    ensures { IfOk result (λ t. t ≡ name_token sig.now schematic kind name.now) }
{
    let copy = name.copy()?;
    match kind {
        Kind::Name => Ok(TextToken::Name(copy, sig.arity(name))),
        Kind::Unknown => {
            if schematic {
                Ok(TextToken::Other(TermToken::Unknown(copy)))
            } else {
                Ok(TextToken::Other(TermToken::Schematic(copy)))
            }
        }
        Kind::TypeVariable => Ok(TextToken::Variable(copy)),
        Kind::TypeUnknown => {
            if schematic {
                Ok(TextToken::Unknown(copy))
            } else {
                Ok(TextToken::Other(TermToken::Schematic(copy)))
            }
        }
    }
}

/// The token of punctuation.
fn mark_token(mark: Mark) -> TextToken
    ensures { result ≡ mark_token mark }
{
    match mark {
        Mark::Open => TextToken::Open,
        Mark::Close => TextToken::Close,
        Mark::Dot => TextToken::Other(TermToken::Dot),
        Mark::Colons => TextToken::Other(TermToken::Colons),
        Mark::OpenPremises => TextToken::Other(TermToken::OpenPremises),
        Mark::Semicolon => TextToken::Other(TermToken::Semicolon),
        Mark::ClosePremises => TextToken::Other(TermToken::ClosePremises),
    }
}

/// The token of a sign of terms. Names, types and bytes are no signs.
fn sign_token(alloc: Global, sign: Token) -> TextToken
    ensures { result ≡ sign_token sign }
{
    match sign {
        Token::Infix(infix) => TextToken::Other(TermToken::Infix(infix)),
        Token::Prefix(prefix) => TextToken::Other(TermToken::Prefix(prefix)),
        Token::Binder(binder) => TextToken::Other(TermToken::Binder(binder)),
        Token::Mark(mark) => mark_token(mark),
        Token::Atom(_) => TextToken::Other(TermToken::Symbol(Name::new(alloc))),
        Token::Type(_) => TextToken::Other(TermToken::Symbol(Name::new(alloc))),
        Token::Other(_) => TextToken::Other(TermToken::Symbol(Name::new(alloc))),
    }
}

/// The token of a sign of types alone.
fn type_mark_token(mark: TypeMark) -> TextToken
    ensures { result ≡ type_mark_token mark }
{
    match mark {
        TypeMark::Arrow => TextToken::Arrow,
        TypeMark::OpenList => TextToken::OpenList,
        TypeMark::CloseList => TextToken::CloseList,
        TypeMark::Comma => TextToken::Comma,
    }
}

/// The token that a word is.
fn word_token(
    alloc: Global,
    sig: &Signature,
    schematic: bool,
    word: &Word,
) -> Result<TextToken, AllocError>
    ensures { IfOk result (λ t. t ≡ token_of sig.now schematic word.now) }
{
    match word {
        Word::Named(kind, name) => name_token(sig, schematic, *kind, name),
        Word::Sign(sign) => match *sign {
            Sign::Term(token) => Ok(sign_token(alloc, token)),
            Sign::Type(mark) => Ok(type_mark_token(mark)),
        },
        Word::Unknown(symbol) => Ok(TextToken::Other(TermToken::Symbol(symbol.copy()?))),
    }
}

/// The tokens that words are.
pub(crate) fn tokens(
    alloc: Global,
    sig: &Signature,
    schematic: bool,
    words: &[Word],
) -> Result<Vec<TextToken>, AllocError>
    ensures { IfOk result (λ tokens. tokens.items ≡ tokens_of sig.now schematic words.now) }
{
    let mut tokens = Vec::new(alloc);
    let mut rest = words;
    while let Some((word, after)) = rest.split_first() {
        tokens.push(word_token(alloc, sig, schematic, word)?)?;
        rest = after;
    }
    Ok(tokens)
}
