//! The tokens of a text.
ghost use Rattle.std.specs.Prelude.{◌≡◌, ◌<◌, ◌≤◌, ◌+◌, ◌-◌, ◌^◌, ◌∷◌, length, drop, take, count_by, nat_eq, IfOk, IsTrue};
ghost use Rattle.isa_tokens.specs.Tokens.{is_letter, is_digit, is_name_byte, starts, opens, inside_end, bracket_front, run, begins_name, front_of, plain_front, Reads};
ghost use Rattle.isa_tokens.specs.Private.Scans.{inside_view, front_view, EndsWithin, GoesOn};

use crate::bracket::{Bracket, is_allowed, is_blank};
use crate::token::{Bytes, Fault, Lexeme, Token};
use std::alloc::{AllocError, Global};

/// How deep comments and cartouches nest.
const DEPTH: usize = 500;

fn is_letter(b: u8) -> bool
    ensures { result ≡ is_letter b }
{
    b.is_ascii_alphabetic()
}

fn is_digit(b: u8) -> bool
    ensures { result ≡ is_digit b }
{
    b.is_ascii_digit()
}

fn is_name_byte(b: u8) -> bool
    ensures { result ≡ is_name_byte b }
{
    b.is_ascii_alphanumeric() || b == b'_' || b == b'\''
}

/// Whether the text begins so.
fn starts(mark: &[u8], text: &[u8]) -> bool
    ensures test { result ≡ starts mark.now text.now }
    ensures long { IsTrue result → length mark.now ≤ length text.now }
{
    text.starts_with(mark)
}

fn skip(text: &[u8], count: usize) -> &[u8]
    requires { count ≤ length text.now }
    ensures { result.now ≡ drop count text.now }
{
    &text[count..]
}

/// Where the inside of a bracket ends.
enum Inside<'a> {
    Closes(&'a [u8]),
    Unclosed,
    Breaks(Fault, &'a [u8]),
}

fn inside_end(bracket: Bracket, text: &[u8]) -> Inside<'_>
    ensures end { inside_view result ≡ inside_end bracket 0 1 text.now }
    ensures within { EndsWithin bracket text.now (inside_view result) }
{
    let mut rest = text;
    let mut depth = 1;
    while let Some((first, after)) = rest.split_first() {
        if starts(bracket.closes(), rest) {
            if depth == 1 {
                return Inside::Closes(rest);
            }
            depth -= 1;
            rest = skip(rest, bracket.closes().len());
        } else if starts(bracket.opens(), rest) {
            if depth == DEPTH {
                return Inside::Breaks(Fault::Deep, rest);
            }
            depth += 1;
            rest = skip(rest, bracket.opens().len());
        } else if bracket.allows(*first) {
            rest = after;
        } else {
            return Inside::Breaks(Fault::Byte, rest);
        }
    }
    Inside::Unclosed
}

/// How many bytes at the front belong to a name.
fn name_run(text: &[u8]) -> usize
    ensures run { result ≡ run is_name_byte text.now }
    ensures within { result ≤ length text.now }
{
    for (i, b) in text.iter().enumerate() {
        if !is_name_byte(*b) {
            return i;
        }
    }
    text.len()
}

/// How many digits stand at the front.
fn digit_run(text: &[u8]) -> usize
    ensures run { result ≡ run is_digit text.now }
    ensures within { result ≤ length text.now }
{
    for (i, b) in text.iter().enumerate() {
        if !is_digit(*b) {
            return i;
        }
    }
    text.len()
}

/// What stands at the front of a text.
enum Front<'a> {
    Ends,
    Skips(&'a [u8]),
    Gives(Lexeme<'a>, &'a [u8]),
    Faults(Fault, &'a [u8]),
}

fn bracket_front(bracket: Bracket, text: &[u8]) -> Front<'_>
    requires { length (opens bracket) ≤ length text.now }
    ensures front { front_view result ≡ bracket_front bracket text.now }
    ensures rest { GoesOn text.now (front_view result) }
{
    let inside = skip(text, bracket.opens().len());
    match inside_end(bracket, inside) {
        Inside::Closes(at) => {
            let rest = skip(at, bracket.closes().len());
            match bracket {
                Bracket::Comment => Front::Skips(rest),
                _ => Front::Gives(
                    Lexeme::Text(Bytes::new(&inside[..inside.len() - at.len()])),
                    rest,
                ),
            }
        }
        Inside::Unclosed => Front::Faults(bracket.fault(), text),
        Inside::Breaks(fault, at) => Front::Faults(fault, at),
    }
}

/// What stands at the front of a text.
fn next_front(text: &[u8]) -> Front<'_>
    ensures front { front_view result ≡ front_of text.now }
    ensures rest { GoesOn text.now (front_view result) }
{
    let Some((first, after)) = text.split_first() else {
        return Front::Ends;
    };
    if starts(Bracket::Comment.opens(), text) {
        return bracket_front(Bracket::Comment, text);
    }
    if starts(Bracket::Cartouche.opens(), text) {
        return bracket_front(Bracket::Cartouche, text);
    }
    if starts(Bracket::Quotes.opens(), text) {
        return bracket_front(Bracket::Quotes, text);
    }
    plain_front(*first, after, text)
}

fn plain_front<'a>(first: u8, after: &'a [u8], text: &'a [u8]) -> Front<'a>
    requires { text.now ≡ first ∷ after.now }
    ensures front { front_view result ≡ plain_front first after.now }
    ensures rest { GoesOn text.now (front_view result) }
{
    if is_blank(first) {
        return Front::Skips(after);
    }
    if is_letter(first) {
        let count = name_run(text);
        return Front::Gives(Lexeme::Name(Bytes::new(&text[..count])), skip(text, count));
    }
    if is_digit(first) {
        let count = digit_run(text);
        return Front::Gives(
            Lexeme::Number(Bytes::new(&text[..count])),
            skip(text, count),
        );
    }
    if first == b'\'' && begins_name(after) {
        let count = name_run(text);
        return Front::Gives(
            Lexeme::TypeVariable(Bytes::new(&text[..count])),
            skip(text, count),
        );
    }
    if starts(b"::", text) {
        return Front::Gives(Lexeme::Colons, skip(text, 2));
    }
    if is_allowed(first) {
        return Front::Gives(Lexeme::Sign(first), after);
    }
    Front::Faults(Fault::Byte, text)
}

fn begins_name(text: &[u8]) -> bool
    ensures { result ≡ begins_name text.now }
{
    match text.split_first() {
        None => false,
        Some((first, _)) => is_letter(*first),
    }
}

/// The number of line feeds among the first bytes.
fn newlines(text: &[u8], count: usize) -> usize
    requires { count ≤ length text.now }
    ensures count { result ≡ count_by (λ b. nat_eq b 10) (take count text.now) }
    ensures fewer { result ≤ count }
{
    text[..count].iter().filter(|b| **b == b'\n').count()
}

/// The tokens of a text, of which the last is its end or its first fault.
pub fn tokens<'a>(alloc: Global, text: &'a [u8]) -> Result<Vec<Token<'a>>, AllocError>
    ensures { IfOk result (λ tokens. Reads text.now text.now tokens.items) }
{
    let mut tokens = Vec::new(alloc);
    let mut rest = text;
    let mut line = 1u64;
    loop {
        match next_front(rest) {
            Front::Ends => {
                tokens.push(Token {
                    lexeme: Lexeme::End,
                    line,
                })?;
                return Ok(tokens);
            }
            Front::Skips(after) => {
                line += newlines(rest, rest.len() - after.len()) as u64;
                rest = after;
            }
            Front::Gives(lexeme, after) => {
                tokens.push(Token { lexeme, line })?;
                line += newlines(rest, rest.len() - after.len()) as u64;
                rest = after;
            }
            Front::Faults(fault, at) => {
                let line = line + newlines(rest, rest.len() - at.len()) as u64;
                tokens.push(Token {
                    lexeme: Lexeme::Broken(fault),
                    line,
                })?;
                return Ok(tokens);
            }
        }
    }
}
