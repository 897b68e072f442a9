//! Reading words into terms, theorems, an instance and names.
use crate::fault::{Fault, axiom_fault, inference_fault};
use crate::rule::Rule;
use crate::symbols::Symbols;
use crate::terms::TermStack;
use crate::types::typ;
use isa_kernel::{
    InferenceError, Theory, Thm, abstract_rule, assume, axiom, beta, combination, discharge,
    equal_elim, equal_intr, eta, forall_elim, forall_intr, generalize, implies_elim, implies_intr,
    instantiate_thm, normal_form, reflexive, rename, symmetric, transitive, undischarge,
};
use isa_terms::{Inst, Name, Names, Term, TermNode, Terms};
use std::alloc::Global;

/// Terms and theorems, of which the one that was written last is taken first, and an instance and names.
#[derive(Drop)]
pub struct Stack {
    terms: TermStack,
    thms: Vec<Thm>,
    inst: Inst,
    names: Names,
}

impl Stack {
    pub fn new(alloc: Global) -> Stack {
        Stack {
            terms: TermStack::new(alloc),
            thms: Vec::new(alloc),
            inst: Inst::new(alloc),
            names: Names::new(alloc),
        }
    }

    /// Takes the term that was put last.
    pub fn take_term(&mut self) -> Result<Term, Fault> {
        self.terms.take()
    }

    /// Takes the theorem that was put last.
    pub fn take_thm(&mut self) -> Result<Thm, Fault> {
        self.thms.pop().ok_or(Fault::Words)
    }

    /// The instance of the entries that were put.
    pub fn inst(&self) -> &Inst {
        &self.inst
    }

    fn put_thm(&mut self, th: Thm) -> Result<(), Fault> {
        match self.thms.push(th) {
            Ok(()) => Ok(()),
            Err(_) => Err(Fault::Memory),
        }
    }

    /// Reads words from the last to the first. Each takes what it needs of that which stands behind it: the name of an
    /// inference takes its arguments, and `discharge` and `undischarge` all terms that are left, `put` an unknown and a term
    /// for it, `'a:=T` puts a type for the type unknown `'a`, `name` takes a free variable for its name, and the others are
    /// those of terms.
    pub fn read(
        &mut self,
        alloc: Global,
        symbols: &Symbols,
        theory: &Theory,
        text: &str,
    ) -> Result<(), Fault> {
        for word in text.rsplit(' ') {
            self.put_word(alloc, symbols, theory, word)?;
        }
        Ok(())
    }

    fn put_word(
        &mut self,
        alloc: Global,
        symbols: &Symbols,
        theory: &Theory,
        word: &str,
    ) -> Result<(), Fault> {
        match Rule::of_word(word) {
            Some(rule) => {
                let th = self.derive(alloc, theory, rule)?;
                self.put_thm(th)
            }
            None => self.put_part(alloc, symbols, word),
        }
    }

    fn put_part(&mut self, alloc: Global, symbols: &Symbols, word: &str) -> Result<(), Fault> {
        if word == "put" {
            return self.put_entry(alloc);
        }
        if word == "name" {
            return self.put_name();
        }
        match word.strip_prefix("'a:=") {
            Some(letters) => self.put_type(alloc, letters),
            None => self.terms.put_word(alloc, symbols, word),
        }
    }

    fn put_entry(&mut self, alloc: Global) -> Result<(), Fault> {
        let unknown = self.terms.take()?;
        let term = self.terms.take()?;
        put_term(alloc, &mut self.inst, &unknown, term)
    }

    fn put_type(&mut self, alloc: Global, letters: &str) -> Result<(), Fault> {
        let typ = typ(alloc, letters)?;
        let name = Name::from_text(alloc, "'a")?;
        Ok(self.inst.put_type(alloc, name, 0, typ)?)
    }

    fn put_name(&mut self) -> Result<(), Fault> {
        let variable = self.terms.take()?;
        Ok(self.names.push(free_name(&variable)?)?)
    }

    /// What the inference answers for what was put last.
    pub fn derive(&mut self, alloc: Global, theory: &Theory, rule: Rule) -> Result<Thm, Fault> {
        match rule {
            Rule::Axiom => self.by_axiom(alloc, theory),
            Rule::Assume | Rule::Reflexive | Rule::Beta | Rule::Eta | Rule::NormalForm => {
                self.of_term(alloc, rule)
            }
            Rule::ImpliesIntr
            | Rule::ForallIntr
            | Rule::ForallElim
            | Rule::AbstractRule
            | Rule::Rename => self.of_both(alloc, rule),
            Rule::Discharge | Rule::Undischarge => self.of_premises(alloc, rule),
            Rule::Cite(number) => self.cited(alloc, number),
            Rule::Symmetric | Rule::Instantiate | Rule::Generalize => self.of_thm(alloc, rule),
            Rule::ImpliesElim
            | Rule::Transitive
            | Rule::Combination
            | Rule::EqualIntr
            | Rule::EqualElim => self.of_two(alloc, rule),
        }
    }

    fn by_axiom(&mut self, alloc: Global, theory: &Theory) -> Result<Thm, Fault> {
        let constant = self.terms.take()?;
        match axiom(alloc, theory, &free_name(&constant)?) {
            Ok(th) => Ok(th),
            Err(error) => Err(axiom_fault(error)),
        }
    }

    fn of_term(&mut self, alloc: Global, rule: Rule) -> Result<Thm, Fault> {
        let t = self.terms.take()?;
        answered(match rule {
            Rule::Assume => assume(alloc, &t),
            Rule::Reflexive => reflexive(alloc, &t),
            Rule::Beta => beta(alloc, &t),
            Rule::NormalForm => normal_form(alloc, &t),
            _ => eta(alloc, &t),
        })
    }

    fn of_both(&mut self, alloc: Global, rule: Rule) -> Result<Thm, Fault> {
        let t = self.terms.take()?;
        let th = self.take_thm()?;
        answered(match rule {
            Rule::ImpliesIntr => implies_intr(alloc, &t, &th),
            Rule::ForallIntr => forall_intr(alloc, &t, &th),
            Rule::ForallElim => forall_elim(alloc, &t, &th),
            Rule::Rename => rename(alloc, &t, &th),
            _ => abstract_rule(alloc, &t, &th),
        })
    }

    fn of_thm(&mut self, alloc: Global, rule: Rule) -> Result<Thm, Fault> {
        let th = self.take_thm()?;
        answered(match rule {
            Rule::Symmetric => symmetric(alloc, &th),
            Rule::Instantiate => instantiate_thm(alloc, &self.inst, &th),
            _ => generalize(alloc, &self.names, &th),
        })
    }

    /// Of all terms that stand behind the word, as premises.
    fn of_premises(&mut self, alloc: Global, rule: Rule) -> Result<Thm, Fault> {
        let th = self.take_thm()?;
        let mut premises = Terms::new(alloc);
        for _premise in 0..self.terms.len() {
            premises.push(self.terms.take()?)?;
        }
        answered(match rule {
            Rule::Discharge => discharge(alloc, premises.as_slice(), &th),
            _ => undischarge(alloc, premises.as_slice(), &th),
        })
    }

    /// The theorem cited; words that give hypotheses have no meaning here.
    fn cited(&mut self, alloc: Global, number: u64) -> Result<Thm, Fault> {
        let th = self.take_thm()?;
        if th.hyps().is_empty() {
            Ok(th.cite(alloc, number)?)
        } else {
            Err(Fault::Words)
        }
    }

    fn of_two(&mut self, alloc: Global, rule: Rule) -> Result<Thm, Fault> {
        let first = self.take_thm()?;
        let second = self.take_thm()?;
        answered(match rule {
            Rule::ImpliesElim => implies_elim(alloc, &first, &second),
            Rule::Transitive => transitive(alloc, &first, &second),
            Rule::Combination => combination(alloc, &first, &second),
            Rule::EqualIntr => equal_intr(alloc, &first, &second),
            _ => equal_elim(alloc, &first, &second),
        })
    }
}

fn answered(answer: Result<Thm, InferenceError>) -> Result<Thm, Fault> {
    match answer {
        Ok(th) => Ok(th),
        Err(error) => Err(inference_fault(error)),
    }
}

/// The name of a free variable.
fn free_name(t: &Term) -> Result<Name, Fault> {
    match t.view() {
        TermNode::Free(name, _) => Ok(name.copy()?),
        _ => Err(Fault::Words),
    }
}

/// Puts a term for an unknown.
fn put_term(alloc: Global, inst: &mut Inst, unknown: &Term, term: Term) -> Result<(), Fault> {
    match unknown.view() {
        TermNode::Unknown(name, number, typ) => {
            Ok(inst.put_term(alloc, name.copy()?, *number, typ.copy()?, term)?)
        }
        _ => Err(Fault::Words),
    }
}
