//! What rows are read over: words, and a theory.
use crate::fault::Fault;
use crate::rule::Rule;
use crate::stack::Stack;
use crate::symbols::Symbols;
use crate::words::split;
use isa_kernel::{Theory, Thm};
use isa_terms::Term;
use std::alloc::Global;

/// The words that were declared, and the theory that axioms are taken from.
#[derive(Drop)]
pub struct Bench {
    pub symbols: Symbols,
    pub theory: Theory,
}

impl Bench {
    /// Nothing is declared.
    pub fn new(alloc: Global) -> Result<Bench, Fault> {
        match Theory::new(alloc) {
            Ok(theory) => Ok(Bench {
                symbols: Symbols::new(alloc),
                theory,
            }),
            Err(_) => Err(Fault::Memory),
        }
    }

    /// What the words put on an empty stack.
    pub fn read(&self, alloc: Global, text: &str) -> Result<Stack, Fault> {
        let mut stack = Stack::new(alloc);
        stack.read(alloc, &self.symbols, &self.theory, text)?;
        Ok(stack)
    }

    /// The term that the words write.
    pub fn term(&self, alloc: Global, text: &str) -> Result<Term, Fault> {
        self.read(alloc, text)?.take_term()
    }

    /// The theorem that the words derive. A refusal is a fault of the words.
    pub fn thm(&self, alloc: Global, text: &str) -> Result<Thm, Fault> {
        match self.read(alloc, text) {
            Ok(mut stack) => stack.take_thm(),
            Err(fault) => Err(fault.as_words()),
        }
    }

    /// What the first word's inference answers. A refusal before it is a fault of the words.
    pub fn last_inference(&self, alloc: Global, text: &str) -> Result<Thm, Fault> {
        let (word, rest) = split(text)?;
        let rule = Rule::of_word(word).ok_or(Fault::Words)?;
        match self.read(alloc, rest) {
            Ok(mut stack) => stack.derive(alloc, &self.theory, rule),
            Err(fault) => Err(fault.as_words()),
        }
    }
}
