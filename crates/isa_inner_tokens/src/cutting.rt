//! Cutting a text into words.
ghost use Rattle.std.specs.Prelude.{◌≡◌, ◌<◌, ◌≤◌, ◌+◌, ◌^◌, length, take, drop, IfOk, IfSome, true, false};
ghost use Rattle.isa_inner_tokens.specs.Cutting.{Cuts, sign_at, longest_sign, named, after_question, sized, name_in, longer, first_word, to_close, symbol_length};

use crate::names::{is_blank, name_length};
use crate::sign::{Sign, Signs};
use isa_terms::Name;
use std::alloc::{AllocError, Global};

/// What a name of a text stands for, by what stands in front of it.
#[derive(Clone, Copy, Debug, PartialEq, Eq)]
pub enum Kind {
    /// An identifier.
    Name,
    /// `?x`
    Unknown,
    /// `'a`
    TypeVariable,
    /// `?'a`
    TypeUnknown,
}

/// A word of an inner text.
#[derive(Drop)]
pub enum Word {
    /// A name, without `?` and with `'`.
    Named(Kind, Name),
    Sign(Sign),
    /// A symbol that begins no word: a byte, or the text from `\<` to the next `>`.
    Unknown(Name),
}

/// The longest sign that the text begins with, and its length.
#[tactic(auto, using(crate::proofs::Lengths::sought))]
fn sign_at(alloc: Global, signs: &Signs, text: &[u8]) -> Result<Option<(usize, Sign)>, AllocError>
    ensures found { IfOk result (λ found. found ≡ sign_at signs.now text.now) }
    ensures within { IfOk result (λ found. IfSome found (λ f. (0 < f.0) × (f.0 ≤ length text.now))) }
{
    let mut count = signs.longest().min(text.len());
    'lengths: while 0 < count {
        let spelling = Name::from_bytes(alloc, &text[..count])?;
        if let Some(sign) = signs.sign(&spelling) {
            return Ok(Some((count, sign)));
        }
        count -= 1;
    }
    Ok(None)
}

/// A name of this kind behind so many bytes, and the length of both.
fn sized(kind: Kind, before: usize, text: &[u8]) -> Option<(Kind, usize)>
    requires { before + length text.now < 2 ^ 64 }
    ensures found { result ≡ sized kind before text.now }
    ensures within { IfSome result (λ f. (0 < f.1) × (f.1 ≤ before + length text.now)) }
{
    let length = name_length(text);
    if length == 0 {
        return None;
    }
    Some((kind, before + length))
}

/// The name that the text behind a `?` begins with, and the length with the `?`.
fn after_question(text: &[u8]) -> Option<(Kind, usize)>
    requires { 1 + length text.now < 2 ^ 64 }
    ensures found { result ≡ after_question text.now }
    ensures within { IfSome result (λ f. (0 < f.1) × (f.1 ≤ 1 + length text.now)) }
{
    let (first, after) = text.split_first()?;
    if *first == b'\'' {
        return sized(Kind::TypeUnknown, 2, after);
    }
    sized(Kind::Unknown, 1, text)
}

/// The name that the text begins with, and its length.
fn named(text: &[u8]) -> Option<(Kind, usize)>
    ensures found { result ≡ named text.now }
    ensures within { IfSome result (λ f. (0 < f.1) × (f.1 ≤ length text.now)) }
{
    let (first, after) = text.split_first()?;
    if *first == b'?' {
        return after_question(after);
    }
    if *first == b'\'' {
        return sized(Kind::TypeVariable, 1, after);
    }
    sized(Kind::Name, 0, text)
}

/// The name in a word of this kind.
fn name_in(alloc: Global, kind: Kind, bytes: &[u8]) -> Result<Name, AllocError>
    requires { 0 < length bytes.now }
    ensures { IfOk result (λ name. name ≡ name_in kind bytes.now) }
{
    match kind {
        Kind::Name => Name::from_bytes(alloc, bytes),
        Kind::Unknown => Name::from_bytes(alloc, &bytes[1..]),
        Kind::TypeVariable => Name::from_bytes(alloc, bytes),
        Kind::TypeUnknown => Name::from_bytes(alloc, &bytes[1..]),
    }
}

/// A name of the text as a word, with its length.
fn name_word(
    alloc: Global,
    text: &[u8],
    kind: Kind,
    count: usize,
) -> Result<Option<(usize, Word)>, AllocError>
    requires { (0 < count) × (count ≤ length text.now) }
    ensures { IfOk result (λ found. found ≡ Some (count, Word.Named kind (name_in kind (take count text.now)))) }
{
    let name = name_in(alloc, kind, &text[..count])?;
    Ok(Some((count, Word::Named(kind, name))))
}

/// The word that the text begins with, and its length.
fn first_word(
    alloc: Global,
    signs: &Signs,
    text: &[u8],
) -> Result<Option<(usize, Word)>, AllocError>
    ensures found { IfOk result (λ found. found ≡ first_word signs.now text.now) }
    ensures within { IfOk result (λ found. IfSome found (λ f. (0 < f.0) × (f.0 ≤ length text.now))) }
{
    let sign = sign_at(alloc, signs, text)?;
    let name = named(text);
    match (sign, name) {
        (None, None) => Ok(None),
        (Some((count, sign)), None) => Ok(Some((count, Word::Sign(sign)))),
        (None, Some((kind, count))) => name_word(alloc, text, kind, count),
        (Some((sign_count, sign)), Some((kind, count))) => {
            if count <= sign_count {
                return Ok(Some((sign_count, Word::Sign(sign))));
            }
            name_word(alloc, text, kind, count)
        }
    }
}

/// The number of bytes up to the next `>`, with it.
fn to_close(text: &[u8]) -> Option<usize>
    ensures found { result ≡ to_close text.now }
    ensures within { IfSome result (λ n. n ≤ length text.now) }
{
    let mut count = 0;
    let mut rest = text;
    while let Some((first, after)) = rest.split_first() {
        count += 1;
        if *first == b'>' {
            return Some(count);
        }
        rest = after;
    }
    None
}

/// The length of the symbol that the text begins with.
fn symbol_length(text: &[u8]) -> usize
    ensures length { result ≡ symbol_length text.now }
    ensures within { result ≤ length text.now }
{
    let Some((first, after)) = text.split_first() else {
        return 0;
    };
    let Some((second, rest)) = after.split_first() else {
        return 1;
    };
    if *first == b'\\' && *second == b'<' {
        return match to_close(rest) {
            None => 1,
            Some(count) => count + 2,
        };
    }
    1
}

/// The words of a text. A symbol that begins no word is the last one.
pub fn words(alloc: Global, signs: &Signs, text: &[u8]) -> Result<Vec<Word>, AllocError>
    ensures { IfOk result (λ words. Cuts signs.now text.now words.items) }
{
    let mut words = Vec::new(alloc);
    let mut rest = text;
    while let Some((first, after)) = rest.split_first() {
        if is_blank(*first) {
            rest = after;
            continue;
        }
        let Some((count, word)) = first_word(alloc, signs, rest)? else {
            let symbol = Name::from_bytes(alloc, &rest[..symbol_length(rest)])?;
            words.push(Word::Unknown(symbol))?;
            return Ok(words);
        };
        words.push(word)?;
        rest = &rest[count..];
    }
    Ok(words)
}
