use isa_sketch::{Bench, Fault, is_word, number};
use isa_terms::Terms;
use std::alloc::Global;

/// The text before the first ` ; `, and the text behind it.
pub fn part(text: &str) -> Result<(&str, &str), Fault> {
    text.split_once(" ; ").ok_or(Fault::Words)
}

/// The terms that the text writes, as `A , B`, or `-` for none.
pub fn terms(alloc: Global, bench: &Bench, text: &str) -> Result<Terms, Fault> {
    let mut all = Terms::new(alloc);
    if is_word(text, "-") {
        return Ok(all);
    }
    for words in text.split(" , ") {
        all.push(bench.term(alloc, words)?)?;
    }
    Ok(all)
}

/// The number that the text writes, of 32 bits.
pub fn small_number(text: &str) -> Result<u32, Fault> {
    u32::try_from(number(text)?).map_err(|_| Fault::Words)
}
