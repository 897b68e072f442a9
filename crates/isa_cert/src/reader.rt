//! Reading the words of a line.
ghost use Rattle.std.specs.Prelude.{◌≡◌, ◌≤◌, ◌<◌, ◌+◌, ◌*◌, ◌-◌, ◌^◌, ℕ, List, Some, None, IfSome, IfNone, is_some, nat_le, nat_eq, ◌&&◌, if◌then◌else◌};
ghost use Rattle.isa_terms.specs.Equal.{name_eq};
ghost use Rattle.isa_cert.specs.Lines.{value_from, any_number, number, is_printed, name, next_number, next_name, next_pairs, next_names, numbers, ended, named, one, two};
ghost use Rattle.isa_cert.specs.Answers.{Reads, ReadsNext, ReadsAll};
ghost use Rattle.isa_cert.specs.declared.line.Line.{Line};
ghost use Rattle.isa_cert.specs.declared.line.Rule.{Rule};

use crate::fail::LineFail;
use crate::numbers::{Numbers, Pairs};
use crate::words::Words;
use isa_terms::{Name, Names};
use std::alloc::Global;

/// The greatest number of a line, but for that of an end.
const GREATEST: u64 = 4_294_967_295;

/// Whether the word is this one.
pub(crate) fn is_word(word: &[u8], text: &str) -> bool
    ensures { result ≡ name_eq word.now text.now }
{
    word == text.as_bytes()
}

fn is_digit(byte: u8) -> bool
    ensures { result ≡ (nat_le 48 byte && nat_le byte 57) }
{
    b'0' <= byte && byte <= b'9'
}

/// The value of digits that are worth `value` and one more, where it is within the limit.
fn next_value(value: u64, byte: u8, limit: u64) -> Option<u64>
    ensures some { IfSome result (λ n. (n ≡ value * 10 + (byte - 48)) × (n ≤ limit)) }
    ensures none { IfNone result (limit < value * 10 + (byte - 48)) }
{
    let next = value
        .checked_mul(10)?
        .checked_add(u64::from(byte.saturating_sub(b'0')))?;
    if next > limit { None } else { Some(next) }
}

/// The value of digits behind those that are worth `value`, where it is within the limit.
#[tactic(auto, using(crate::proofs::Reading::past_limit, crate::proofs::Reading::value_next, crate::proofs::Reading::value_stop))]
fn value_from(value: u64, digits: &[u8], limit: u64) -> Option<u64>
    ensures some { IfSome result (λ n. (value_from value digits.now ≡ Some n) × (value ≤ limit → n ≤ limit)) }
    ensures none { IfNone result ((n : ℕ) → value_from value digits.now ≡ Some n → limit < n) }
{
    let Some((first, rest)) = digits.split_first() else {
        return Some(value);
    };
    if !is_digit(*first) {
        return None;
    }
    match next_value(value, *first, limit) {
        None => None,
        Some(next) => value_from(next, rest, limit),
    }
}

/// Whether the word is not empty, and no zero before other digits begins it.
#[tactic(auto, using(crate::proofs::Reading::number_alone, crate::proofs::Reading::number_plain, crate::proofs::Reading::number_zeros))]
fn is_plain(word: &[u8]) -> bool
    ensures { any_number word.now ≡ (if result then value_from 0 word.now else None) }
{
    let Some((first, rest)) = word.split_first() else {
        return false;
    };
    if rest.is_empty() {
        return true;
    }
    if *first == b'0' {
        return false;
    }
    true
}

/// The value of a decimal number without leading zeros, where it is within the limit.
pub(crate) fn value_within(word: &[u8], limit: u64) -> Option<u64>
    ensures some { IfSome result (λ n. (any_number word.now ≡ Some n) × (n ≤ limit)) }
    ensures none { IfNone result ((n : ℕ) → any_number word.now ≡ Some n → limit < n) }
{
    if !is_plain(word) {
        return None;
    }
    value_from(0, word, limit)
}

/// Whether each byte is a digit.
#[tactic(auto, using(crate::proofs::Reading::told))]
fn are_digits(digits: &[u8]) -> bool
    ensures { (n : ℕ) → is_some (value_from n digits.now) ≡ result }
{
    for byte in digits {
        if !is_digit(*byte) {
            return false;
        }
    }
    true
}

/// Whether the word is a decimal number without leading zeros, of any size.
pub(crate) fn is_number(word: &[u8]) -> bool
    ensures { result ≡ is_some (any_number word.now) }
{
    if !is_plain(word) {
        return false;
    }
    are_digits(word)
}

fn number(word: &[u8]) -> Result<u32, LineFail>
    ensures { Reads result (number word.now) }
{
    match value_within(word, GREATEST) {
        Some(value) => Ok(value as u32),
        None => Err(LineFail::Form),
    }
}

/// Whether each byte is printed.
fn is_printed(word: &[u8]) -> bool
    ensures { result ≡ is_printed word.now }
{
    for byte in word {
        if !(33 <= *byte && *byte <= 126) {
            return false;
        }
    }
    true
}

fn name(alloc: Global, word: &[u8]) -> Result<Name, LineFail>
    ensures { Reads result (name word.now) }
{
    if word.is_empty() || !is_printed(word) {
        return Err(LineFail::Form);
    }
    Ok(Name::from_bytes(alloc, word)?)
}

/// The next word, as a number.
pub(crate) fn next_number(words: &mut Words<'_>) -> Result<u32, LineFail>
    ensures { ReadsNext result words.new (next_number words.old) }
{
    match words.next() {
        Some(word) => number(word),
        None => Err(LineFail::Form),
    }
}

/// The next word, as a name.
pub(crate) fn next_name(alloc: Global, words: &mut Words<'_>) -> Result<Name, LineFail>
    ensures { ReadsNext result words.new (next_name words.old) }
{
    match words.next() {
        Some(word) => name(alloc, word),
        None => Err(LineFail::Form),
    }
}

/// The next words, as so many pairs of numbers.
#[tactic(auto, using(crate::proofs::Reading::added_start))]
pub(crate) fn next_pairs(
    alloc: Global,
    count: u32,
    words: &mut Words<'_>,
) -> Result<Pairs, LineFail>
    ensures { ReadsNext result words.new (next_pairs count words.old) }
{
    let mut pairs = Pairs::new(alloc);
    let mut left = count;
    while left > 0 {
        let first = next_number(words)?;
        let second = next_number(words)?;
        pairs.push(first, second)?;
        left -= 1;
    }
    Ok(pairs)
}

/// The next words, as so many names.
#[tactic(auto, using(crate::proofs::Reading::added_start))]
pub(crate) fn next_names(
    alloc: Global,
    count: u32,
    words: &mut Words<'_>,
) -> Result<Names, LineFail>
    ensures { ReadsNext result words.new (next_names count words.old) }
{
    let mut names = Names::new(alloc);
    let mut left = count;
    while left > 0 {
        let item = next_name(alloc, words)?;
        names.push(item)?;
        left -= 1;
    }
    Ok(names)
}

/// The numbers that all the words are.
#[tactic(auto, using(crate::proofs::Reading::begun_start))]
pub(crate) fn numbers(alloc: Global, words: &mut Words<'_>) -> Result<Numbers, LineFail>
    ensures { Reads result (numbers words.old) }
{
    let mut all = Numbers::new(alloc);
    while let Some(word) = words.next() {
        let item = number(word)?;
        all.push(item)?;
    }
    Ok(all)
}

/// Asks that no word is left.
pub(crate) fn check_ended(words: &mut Words<'_>) -> Result<(), LineFail>
    ensures { Reads result (ended tt words.old) }
{
    match words.next() {
        None => Ok(()),
        Some(_) => Err(LineFail::Form),
    }
}

/// A name and a number, and no more.
pub(crate) fn named(alloc: Global, words: &mut Words<'_>) -> Result<(Name, u32), LineFail>
    ensures { (made : List ℕ → ℕ → Line) → ReadsAll result (λ p. made p.0 p.1) (named made words.old) }
{
    let name = next_name(alloc, words)?;
    let number = next_number(words)?;
    check_ended(words)?;
    Ok((name, number))
}

/// One number, and no more.
pub(crate) fn one(words: &mut Words<'_>) -> Result<u32, LineFail>
    ensures { (made : ℕ → Rule) → ReadsAll result made (one made words.old) }
{
    let number = next_number(words)?;
    check_ended(words)?;
    Ok(number)
}

/// Two numbers, and no more.
pub(crate) fn two(words: &mut Words<'_>) -> Result<(u32, u32), LineFail>
    ensures { (made : ℕ → ℕ → Rule) → ReadsAll result (λ p. made p.0 p.1) (two made words.old) }
{
    let first = next_number(words)?;
    let second = next_number(words)?;
    check_ended(words)?;
    Ok((first, second))
}
