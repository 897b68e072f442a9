//! Reading words into terms.
use crate::fault::Fault;
use crate::symbols::Symbols;
use crate::types::typ;
use isa_kernel::{make_all, make_eq, make_imp};
use isa_terms::{IllTyped, Name, Term, TermNode, Typ, type_of};
use std::alloc::Global;

/// Terms, of which the one that was written last is taken first.
#[derive(Drop)]
pub struct TermStack {
    items: Vec<Term>,
}

impl TermStack {
    pub fn new(alloc: Global) -> TermStack {
        TermStack {
            items: Vec::new(alloc),
        }
    }

    /// How many terms there are.
    pub fn len(&self) -> usize {
        self.items.len()
    }

    /// Takes the term that was put last.
    pub fn take(&mut self) -> Result<Term, Fault> {
        self.items.pop().ok_or(Fault::Words)
    }

    fn put(&mut self, term: Term) -> Result<(), Fault> {
        match self.items.push(term) {
            Ok(()) => Ok(()),
            Err(_) => Err(Fault::Memory),
        }
    }

    /// Puts the term of the word, made of the terms that stand behind it. The words are `@` for an application, `==>`,
    /// `==`, `%x` and `!!x` for binders over the type `i` and `%x:T` for one over T, numbers for bound variables, and
    /// those that were declared.
    pub fn put_word(&mut self, alloc: Global, symbols: &Symbols, word: &str) -> Result<(), Fault> {
        let term = self.term_of(alloc, symbols, word)?;
        self.put(term)
    }

    fn term_of(&mut self, alloc: Global, symbols: &Symbols, word: &str) -> Result<Term, Fault> {
        if let Some(binder) = word.strip_prefix('%') {
            return abstraction(alloc, binder, self.take()?);
        }
        if let Some(binder) = word.strip_prefix("!!") {
            return quantified(alloc, binder, self.take()?);
        }
        match word {
            "@" => application(alloc, self.take()?, self.take()?),
            "==>" => implication(alloc, self.take()?, self.take()?),
            "==" => equation(alloc, self.take()?, self.take()?),
            _ => atom(alloc, symbols, word),
        }
    }
}

fn abstraction(alloc: Global, binder: &str, body: Term) -> Result<Term, Fault> {
    let (name, text) = binder.split_once(':').unwrap_or((binder, "i"));
    let name = Name::from_text(alloc, name)?;
    let typ = typ(alloc, text)?;
    Ok(Term::new(alloc, TermNode::Abs(name, typ, body))?)
}

fn quantified(alloc: Global, binder: &str, body: Term) -> Result<Term, Fault> {
    let name = Name::from_text(alloc, binder)?;
    let typ = typ(alloc, "i")?;
    Ok(make_all(alloc, &name, &typ, body)?)
}

fn application(alloc: Global, fun: Term, arg: Term) -> Result<Term, Fault> {
    Ok(Term::new(alloc, TermNode::App(fun, arg))?)
}

fn implication(alloc: Global, left: Term, right: Term) -> Result<Term, Fault> {
    Ok(make_imp(alloc, &left, &right)?)
}

/// The equation at the type of its left side.
fn equation(alloc: Global, left: Term, right: Term) -> Result<Term, Fault> {
    let typ = typ_of(alloc, &left)?;
    Ok(make_eq(alloc, &typ, &left, &right)?)
}

fn typ_of(alloc: Global, t: &Term) -> Result<Typ, Fault> {
    match type_of(alloc, t) {
        Ok(typ) => Ok(typ),
        Err(IllTyped::Memory) => Err(Fault::Memory),
        Err(_) => Err(Fault::Words),
    }
}

fn atom(alloc: Global, symbols: &Symbols, word: &str) -> Result<Term, Fault> {
    match symbols.find(word) {
        Some(term) => Ok(term.copy()?),
        None => bound(alloc, word),
    }
}

fn bound(alloc: Global, word: &str) -> Result<Term, Fault> {
    match word.parse::<u32>() {
        Ok(number) => Ok(Term::new(alloc, TermNode::Bound(number))?),
        Err(_) => Err(Fault::Words),
    }
}
