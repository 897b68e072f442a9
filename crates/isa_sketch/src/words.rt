//! Words of a text, and numbers.
use crate::fault::Fault;

/// Whether the text is the word.
pub fn is_word(text: &str, word: &str) -> bool {
    text == word
}

/// The first word and the words behind it.
pub fn split(text: &str) -> Result<(&str, &str), Fault> {
    text.split_once(' ').ok_or(Fault::Words)
}

/// The number that the text writes.
pub fn number(text: &str) -> Result<usize, Fault> {
    match text.parse::<usize>() {
        Ok(number) => Ok(number),
        Err(_) => Err(Fault::Words),
    }
}
