//! What the lines of a certificate have given so far.
ghost use Rattle.std.specs.Prelude.{◌≡◌, ◌<◌, [], ◌∷◌, ◌++◌, length, slice_get, Some, None, IfOk, OnOk, MatchResult};
ghost use Rattle.isa_cert.specs.declared.fail.LineFail.TheVariants.{Form};

use crate::fail::LineFail;
use isa_kernel::{Theory, Thm, Thms};
use isa_terms::{Name, Term, Terms, Typ, Typs};
use std::alloc::{AllocError, Global};
use std::marker::Model;

/// A theorem without hypotheses, and its name.
#[derive(Drop)]
pub struct End {
    pub name: Name,
    pub theorem: Thm,
}

/// The ends so far, in their order.
#[derive(Drop)]
pub struct Ends {
    items: Vec<End>,
}

impl Model for Ends {
    ghost use Rattle.std.specs.Prelude.{List};
    ghost use Rattle.isa_cert.specs.declared.table.End.{End};
    ghost use Rattle.std.specs.Coded.{coded_list};
    ghost use Rattle.isa_cert.specs.Codes.{end_code};

    ghost Value = { List End };

    ghost coded = { coded_list end_code };

    ghost view = { λ a. a.items.items };
}

impl Ends {
    /// No end, which takes no memory.
    pub fn new(alloc: Global) -> Ends
        ensures { result ≡ [] }
    {
        Ends {
            items: Vec::new(alloc),
        }
    }

    /// Puts an end last.
    pub fn push(&mut self, item: End) -> Result<(), AllocError>
        ensures { OnOk result (self.new ≡ self.old ++ item ∷ []) }
    {
        self.items.push(item)?;
        Ok(())
    }

    /// How many ends there are.
    pub fn len(&self) -> usize
        ensures { result ≡ length self.now }
    {
        self.items.len()
    }

    /// The end at a place, counted from 0.
    pub fn get(&self, place: usize) -> &End
        requires { place < length self.now }
        ensures { slice_get self.now place ≡ Some result.now }
    {
        &self.items[place]
    }

    /// The ends, in order.
    pub fn as_slice(&self) -> &[End]
        ensures { result.now ≡ self.now }
    {
        self.items.as_slice()
    }
}

/// The types, terms, axioms, steps and ends so far, each by its number, and the theory of what was declared.
#[derive(Drop)]
pub struct Table {
    pub declared: Theory,
    pub types: Typs,
    pub terms: Terms,
    pub axioms: Thms,
    pub steps: Thms,
    pub ends: Ends,
}

impl Table {
    /// No line was taken yet.
    pub fn new(alloc: Global) -> Result<Table, AllocError>
        ensures empty { IfOk result (λ t. (t.declared ≡ []) × (t.types ≡ []) × (t.terms ≡ [])
            × (t.axioms ≡ []) × (t.steps ≡ []) × (t.ends ≡ [])) }
    {
        Ok(Table {
            declared: Theory::new(alloc)?,
            types: Typs::new(alloc),
            terms: Terms::new(alloc),
            axioms: Thms::new(alloc),
            steps: Thms::new(alloc),
            ends: Ends::new(alloc),
        })
    }

    /// The type of that number.
    pub(crate) fn typ(&self, number: u32) -> Result<&Typ, LineFail>
        ensures { MatchResult result (λ t. slice_get self.now.types number ≡ Some t.now)
            (λ fail. (fail ≡ Form) × (slice_get self.now.types number ≡ None)) }
    {
        let place = number as usize;
        if place < self.types.len() {
            Ok(self.types.get(place))
        } else {
            Err(LineFail::Form)
        }
    }

    /// The term of that number.
    pub(crate) fn term(&self, number: u32) -> Result<&Term, LineFail>
        ensures { MatchResult result (λ t. slice_get self.now.terms number ≡ Some t.now)
            (λ fail. (fail ≡ Form) × (slice_get self.now.terms number ≡ None)) }
    {
        let place = number as usize;
        if place < self.terms.len() {
            Ok(self.terms.get(place))
        } else {
            Err(LineFail::Form)
        }
    }

    /// The axiom of that number.
    pub(crate) fn axiom(&self, number: u32) -> Result<&Thm, LineFail>
        ensures { MatchResult result (λ th. slice_get self.now.axioms number ≡ Some th.now)
            (λ fail. (fail ≡ Form) × (slice_get self.now.axioms number ≡ None)) }
    {
        let place = number as usize;
        if place < self.axioms.len() {
            Ok(self.axioms.get(place))
        } else {
            Err(LineFail::Form)
        }
    }

    /// The step of that number.
    pub(crate) fn step(&self, number: u32) -> Result<&Thm, LineFail>
        ensures { MatchResult result (λ th. slice_get self.now.steps number ≡ Some th.now)
            (λ fail. (fail ≡ Form) × (slice_get self.now.steps number ≡ None)) }
    {
        let place = number as usize;
        if place < self.steps.len() {
            Ok(self.steps.get(place))
        } else {
            Err(LineFail::Form)
        }
    }
}
