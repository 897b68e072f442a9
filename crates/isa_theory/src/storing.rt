//! Proved lemmas as facts.
ghost use Rattle.std.specs.Prelude.{◌≡◌, ◌↔◌, [], length, IsTrue, OnOk, OnErr, IfOk};
ghost use Rattle.std.specs.Option.{option_copied};
ghost use Rattle.isa_kernel.specs.Theorem.{IsDerived};
ghost use Rattle.isa_theory.specs.Storing.{general_of, with_named, named_with, closed_with, IsNewName, Stores};
ghost use Rattle.isa_kernel.specs.Citing.{cited};
ghost use Rattle.isa_theory.specs.Private.Growing.{Grows, GrowsIfRefused, Becomes};

use crate::context::Context;
use crate::general::variable_names;
use crate::lemma::Lemma;
use isa_kernel::{InferenceError, Thm, Thms, generalize};
use isa_outer::{Attribute, Kind, Refused};
use isa_terms::Name;
use std::alloc::{AllocError, Global};

/// The theorem with unknowns for its free variables and type variables.
fn general(alloc: Global, thm: &Thm) -> Result<Thm, AllocError>
    requires { thm.now.hyps ≡ [] }
    ensures { IfOk result (λ th. th ≡ general_of thm.now) }
{
    match generalize(alloc, &variable_names(alloc, thm.prop())?, thm) {
        Ok(general) => Ok(general),
        Err(InferenceError::Shape) => unreachable!(),
        Err(InferenceError::Memory) => Err(AllocError),
    }
}

impl Context {
    /// Stores a theorem under a name, where there is one.
    fn put_named(&mut self, alloc: Global, name: Option<&Name>, thm: &Thm) -> Result<(), AllocError>
        requires { IsNewName self.old (option_copied name) }
        ensures ok { OnOk result (self.new ≡ with_named self.old (option_copied name.entry) thm.now) }
        ensures err { OnErr result (self.new ≡ self.old) }
    {
        let Some(name) = name else {
            return Ok(());
        };
        let mut thms = Thms::new(alloc);
        thms.push(thm.copy(alloc)?)?;
        self.push_fact(name.copy()?, thms)
    }

    /// Stores a theorem under a name, where there is one, and then its attributes act.
    #[tactic(auto, unfolding(crate::specs::Storing::named_with))]
    fn store_named(
        &mut self,
        alloc: Global,
        name: Option<&Name>,
        attributes: &[Attribute],
        thm: &Thm,
    ) -> Result<(), Kind>
        requires { IsNewName self.old (option_copied name) }
        ensures becomes { Becomes result self.new (named_with self.old (option_copied name.entry) attributes.now thm.now) }
        ensures grows { Grows self.old self.new }
    {
        let mut thms = Thms::new(alloc);
        thms.push(thm.copy(alloc)?)?;
        self.put_named(alloc, name, thm)?;
        self.act(alloc, attributes, thms.as_slice())
    }

    /// The lemma is closed: its theorem is stored, and then its attributes act.
    #[tactic(auto, unfolding(crate::specs::Storing::closed_with))]
    fn close(
        &mut self,
        alloc: Global,
        name: Option<&Name>,
        attributes: &[Attribute],
        thm: &Thm,
    ) -> Result<(), Kind>
        requires { IsNewName self.old (option_copied name) }
        ensures becomes { Becomes result self.new (closed_with self.old (option_copied name.entry) attributes.now thm.now) }
        ensures grows { GrowsIfRefused result self.old self.new }
    {
        let last = thm.copy(alloc)?;
        self.store_named(alloc, name, attributes, thm)?;
        self.push_lemma(last)?;
        Ok(())
    }

    /// What is kept of a closed lemma: its theorem, cited by the number of lemmas closed before.
    fn kept(&self, alloc: Global, general: &Thm) -> Result<Thm, AllocError>
        requires { general.now.hyps ≡ [] }
        ensures { IfOk result (λ th. th ≡ cited (length self.now.lemmas) general.now) }
    {
        general.cite(alloc, self.closed() as u64)
    }

    /// Whether no fact has the name of a lemma, where it has one.
    pub fn is_new_name(&self, name: Option<&Name>) -> bool
        ensures { IsTrue result ↔ IsNewName self.now (option_copied name.entry) }
    {
        match name {
            Some(name) => self.fact(name).is_none(),
            None => true,
        }
    }

    /// Closes a lemma: answers its theorem with unknowns for its variables, and keeps it, cited by the
    /// number of lemmas closed before, under the lemma's name, where it has one. Then its attributes act;
    /// where one of them is refused the context is as it was.
    pub fn store_lemma(&mut self, alloc: Global, lemma: &Lemma, thm: &Thm) -> Result<Thm, Refused>
        requires new { IsNewName self.old lemma.now.name }
        requires closed { thm.now.hyps ≡ [] }
        ensures { Stores lemma.now thm.now self.old result self.new }
    {
        let mark = self.mark()?;
        let general = general(alloc, thm)?;
        let kept = self.kept(alloc, &general)?;
        match self.close(
            alloc,
            lemma.name.as_ref(),
            lemma.attributes.as_slice(),
            &kept,
        ) {
            Ok(()) => Ok(general),
            Err(kind) => {
                self.undo_to(mark);
                Err(Refused {
                    line: lemma.line,
                    kind,
                })
            }
        }
    }
}
