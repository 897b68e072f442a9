//! Words that stand for constants, free variables and unknowns.
use crate::fault::Fault;
use crate::types::typ;
use crate::words::split;
use isa_terms::{Name, Term, TermNode};
use std::alloc::Global;

/// A word that stands for a term.
#[derive(Drop)]
struct Symbol {
    word: Name,
    term: Term,
}

/// The words that stand for constants, free variables and unknowns.
#[derive(Drop)]
pub struct Symbols {
    items: Vec<Symbol>,
}

impl Symbols {
    pub fn new(alloc: Global) -> Symbols {
        Symbols {
            items: Vec::new(alloc),
        }
    }

    /// The term that the word stands for.
    pub fn find(&self, word: &str) -> Option<&Term> {
        for symbol in &self.items {
            if symbol.word.is_text(word) {
                return Some(&symbol.term);
            }
        }
        None
    }

    /// Gives a meaning to a word, by the words `WORD KIND NAME TYPE`. The kind is `const`, `free`, or the number of an
    /// unknown.
    pub fn declare(&mut self, alloc: Global, text: &str) -> Result<(), Fault> {
        let (word, text) = split(text)?;
        let (kind, text) = split(text)?;
        let (name, text) = split(text)?;
        let term = Term::new(alloc, node(alloc, kind, name, text)?)?;
        let word = Name::from_text(alloc, word)?;
        self.push(Symbol { word, term })
    }

    fn push(&mut self, symbol: Symbol) -> Result<(), Fault> {
        match self.items.push(symbol) {
            Ok(()) => Ok(()),
            Err(_) => Err(Fault::Memory),
        }
    }
}

/// The constant, free variable or unknown of that kind, name and type.
fn node(alloc: Global, kind: &str, name: &str, text: &str) -> Result<TermNode, Fault> {
    let name = Name::from_text(alloc, name)?;
    let typ = typ(alloc, text)?;
    if kind == "const" {
        return Ok(TermNode::Const(name, typ));
    }
    if kind == "free" {
        return Ok(TermNode::Free(name, typ));
    }
    match kind.parse::<u32>() {
        Ok(number) => Ok(TermNode::Unknown(name, number, typ)),
        Err(_) => Err(Fault::Words),
    }
}
