//! The words of a line, one blank between two.
ghost use Rattle.std.specs.Prelude.{◌≡◌, ◌<◌, [], ◌∷◌, length, None, Some, IfNone, IfSome, nat_eq};
ghost use Rattle.std.specs.List.{slice_split};
ghost use Rattle.isa_cert.specs.Words.{words_of};

use std::marker::Model;

/// The first part, and what stands behind the byte that ends it. None where the byte is not in the text.
pub(crate) fn split(text: &[u8], byte: u8) -> Option<(&[u8], &[u8])>
    ensures one { IfNone result (slice_split (λ b. nat_eq b byte) text.now ≡ text.now ∷ []) }
    ensures first { IfSome result (λ found. slice_split (λ b. nat_eq b byte) text.now
        ≡ found.0.now ∷ slice_split (λ b. nat_eq b byte) found.1.now) }
    ensures shorter { IfSome result (λ found. length found.1.now < length text.now) }
{
    for (i, b) in text.iter().enumerate() {
        if *b == byte {
            return Some((&text[..i], &text[i + 1..]));
        }
    }
    None
}

/// The words of a line that are still to be read.
#[derive(Drop)]
pub struct Words<'t> {
    /// None behind the last one.
    rest: Option<&'t [u8]>,
}

impl<'t> Model for Words<'t> {
    ghost use Rattle.std.specs.Prelude.{List, ℕ, []};
    ghost use Rattle.std.specs.Option.{option_map_or};
    ghost use Rattle.isa_cert.specs.Words.{words_of};

    ghost Value = { List (List ℕ) };

    ghost view = { λ w. option_map_or (λ text. words_of text.now) w.rest [] };
}

impl<'t> Words<'t> {
    /// The words of a line.
    pub fn of(line: &'t [u8]) -> Words<'t>
        ensures { result ≡ words_of line.now }
    {
        Words { rest: Some(line) }
    }

    /// The next word.
    pub fn next(&mut self) -> Option<&'t [u8]>
        ensures none { IfNone result (self.old ≡ []) }
        ensures some { IfSome result (λ word. self.old ≡ word.now ∷ self.new) }
    {
        let text = self.rest?;
        match split(text, b' ') {
            None => {
                self.rest = None;
                Some(text)
            }
            Some((word, rest)) => {
                self.rest = Some(rest);
                Some(word)
            }
        }
    }
}
