//! What the commands so far declared and proved.
ghost use Rattle.std.specs.Prelude.{◌≡◌, ◌≤◌, ◌++◌, length, take, is_some, Some, None, IfOk, OnOk, OnErr};
ghost use Rattle.std.specs.Option.{option_copied};
ghost use Rattle.isa_kernel.specs.Theories.{type_refusal, constant_refusal, axiom_prop, axiom_refusal};
ghost use Rattle.isa_kernel.specs.declared.declarations.Declaration.TheVariants.{Constructor, Constant, Axiom};
ghost use Rattle.isa_outer.specs.declared.refusal.Sort.TheVariants as sort;
ghost use Rattle.isa_syntax.specs.Syntaxes.{with_type as with_syntax_type, with_constant as with_syntax_constant, with_judgment as with_syntax_judgment};
ghost use Rattle.isa_syntax.specs.Notations.{with_notation as with_syntax_notation};
ghost use Rattle.isa_syntax.specs.Growing.{undone};
ghost use Rattle.isa_theory.specs.Contexts.{empty_context, fact_of, judgment_name};
ghost use Rattle.isa_theory.specs.Applying.{in_syntax, all_known, new_constant, known_fact, known_facts, new_fact, with_type, with_constant, with_notation, with_fact, declared, axiom_fact, axiom_of, with_option, logic_with, with_attribute};
ghost use Rattle.isa_theory.specs.Storing.{with_closed};
ghost use Rattle.isa_theory.specs.Private.Growing.{Grows, IsMark, Becomes};
ghost use Rattle.isa_theory.specs.Reading.{IsTypeOf, IsPropOf};
ghost use Rattle.isa_theory.specs.Results.{Answers, AnswersBy};
ghost use Rattle.isa_theory.specs.Told.{May};

use crate::declared::Declared;
use crate::general::general_prop;
use crate::kinds::{kind_of, new_name};
use crate::options::Options;
use crate::roles::{has_form, role_name, with_role};
use indexmap::IndexMap;
use isa_kernel::{AxiomFail, Logic, Theory, Thm, Thms, axiom};
use isa_outer::{Attribute, Inner, Kind, Notation, Setting, Sort};
use isa_syntax::{Syntax, read_prop, read_type};
use isa_terms::{Name, Term, Typ};
use std::alloc::{AllocError, Global};
use std::marker::Model;
use std::rc::Rc;

/// What is declared and proved. A fact is a list of theorems under a name.
#[derive(Drop)]
pub struct Context {
    theory: Theory,
    syntax: Syntax,
    facts: IndexMap<Name, Thms>,
    declarations: Vec<Declared>,
    logic: Rc<Logic>,
    options: Options,
    lemmas: Vec<Thm>,
}

impl Model for Context {
    ghost use Rattle.isa_theory.specs.Contexts.{ContextSeen, context_code};

    ghost Value = { ContextSeen };

    ghost coded = { context_code };

    ghost view = { λ c. record { theory = c.theory; syntax = c.syntax; facts = c.facts.entries; declarations = c.declarations.items; logic = c.logic.value; options = c.options; lemmas = c.lemmas.items } };
}

/// How much there was in a context, and the roles that facts had.
#[derive(Drop)]
pub(crate) struct Mark {
    theory: usize,
    syntax: isa_syntax::Mark,
    facts: usize,
    declarations: usize,
    logic: Rc<Logic>,
}

impl Context {
    /// The context in which nothing is declared yet.
    pub fn new(alloc: Global) -> Result<Context, AllocError>
        ensures { IfOk result (λ c. c ≡ empty_context) }
    {
        Ok(Context {
            theory: Theory::new(alloc)?,
            syntax: Syntax::new(alloc)?,
            facts: IndexMap::new(alloc),
            declarations: Vec::new(alloc),
            logic: Rc::new(alloc, Logic::new(alloc))?,
            options: Options::new(),
            lemmas: Vec::new(alloc),
        })
    }

    /// The declared types, constants and axioms.
    pub fn theory(&self) -> &Theory
        ensures { result.now ≡ self.now.theory }
    {
        &self.theory
    }

    /// What texts are read under: the types, constants, notations and the judgment.
    pub fn syntax(&self) -> &Syntax
        ensures { result.now ≡ self.now.syntax }
    {
        &self.syntax
    }

    /// The theorems of the fact of that name.
    pub fn fact(&self, name: &Name) -> Option<&Thms>
        ensures { option_copied result ≡ fact_of self.now name.now }
    {
        self.facts.get(name)
    }

    /// The theorems that attributes declared, in their order.
    pub fn declarations(&self) -> &[Declared]
        ensures { result.now ≡ self.now.declarations }
    {
        self.declarations.as_slice()
    }

    /// The facts with a role.
    pub fn logic(&self) -> &Logic
        ensures { result.now ≡ self.now.logic }
    {
        self.logic.as_ref()
    }

    /// What the options are set to.
    pub fn options(&self) -> &Options
        ensures { result.now ≡ self.now.options }
    {
        &self.options
    }

    /// The lemmas closed so far, with and without a name, each cited by its place.
    pub fn lemmas(&self) -> &[Thm]
        ensures { result.now ≡ self.now.lemmas }
    {
        self.lemmas.as_slice()
    }

    /// The name of the judgment, the empty one where none is declared.
    pub fn judgment_name(&self, alloc: Global) -> Result<Name, AllocError>
        ensures { IfOk result (λ name. name ≡ judgment_name self.now) }
    {
        match self.syntax.judgment() {
            Some(name) => name.copy(),
            None => Ok(Name::new(alloc)),
        }
    }

    /// The type of a text.
    pub(crate) fn read_type(&self, alloc: Global, text: &Inner) -> Result<Typ, Kind>
        ensures { May (IsTypeOf self.now text.now) result }
    {
        read_type(alloc, &self.syntax, false, text.bytes.as_slice())
    }

    /// The proposition of a text, in which unknowns may stand where it is schematic.
    pub(crate) fn read_prop(
        &self,
        alloc: Global,
        schematic: bool,
        text: &Inner,
    ) -> Result<Term, Kind>
        ensures { May (IsPropOf self.now schematic text.now) result }
    {
        read_prop(alloc, &self.syntax, schematic, text.bytes.as_slice())
    }

    /// Refuses the name of a fact that is there.
    #[tactic(auto, unfolding(crate::specs::Applying::new_fact))]
    pub(crate) fn new_fact(&self, name: &Name) -> Result<(), Kind>
        ensures { Answers result (new_fact self.now name.now) }
    {
        new_name(Sort::Fact, name, self.fact(name).is_some())
    }

    /// Refuses the name of a constant that is there.
    #[tactic(auto, unfolding(crate::specs::Applying::new_constant))]
    pub(crate) fn new_constant(&self, name: &Name) -> Result<(), Kind>
        ensures { Answers result (new_constant self.now name.now) }
    {
        new_name(Sort::Constant, name, self.theory.constant(name).is_some())
    }

    /// The theorems of the fact of that name, which must be there.
    #[tactic(auto, unfolding(crate::specs::Applying::known_fact))]
    pub(crate) fn known_fact(&self, name: &Name) -> Result<&Thms, Kind>
        ensures { AnswersBy (λ ths. ths.now) result (known_fact self.now name.now) }
    {
        match self.fact(name) {
            Some(thms) => Ok(thms),
            None => Err(Kind::Unknown(Sort::Fact, name.copy()?)),
        }
    }

    /// Refuses the first of the facts that is not there.
    pub(crate) fn check_facts(&self, facts: &[Name]) -> Result<(), Kind>
        ensures { Answers result (all_known self.now facts.now) }
    {
        for fact in facts {
            self.known_fact(fact)?;
        }
        Ok(())
    }

    /// The theorems of facts, in order.
    pub fn known_facts(&self, alloc: Global, facts: &[Name]) -> Result<Thms, Kind>
        ensures { Answers result (known_facts self.now facts.now) }
    {
        let mut all = Thms::new(alloc);
        for fact in facts {
            push_all(alloc, &mut all, self.known_fact(fact)?)?;
        }
        Ok(all)
    }

    fn declare_theory_type(&mut self, alloc: Global, name: &Name, arity: u32) -> Result<(), Kind>
        ensures becomes { Becomes result self.new (declared sort.Type (Constructor name.now arity) (type_refusal self.old.theory name.now) self.old) }
        ensures grows { Grows self.old self.new }
    {
        match self.theory.declare_type(alloc, name, arity) {
            Ok(()) => Ok(()),
            Err(fail) => Err(kind_of(Sort::Type, fail)),
        }
    }

    fn declare_syntax_type(&mut self, name: &Name, arity: usize) -> Result<(), Kind>
        ensures becomes { Becomes result self.new (in_syntax self.old (with_syntax_type self.old.syntax name.now arity)) }
        ensures grows { Grows self.old self.new }
    {
        self.syntax.declare_type(name, arity)
    }

    /// Declares a type constructor with that number of arguments.
    #[tactic(auto, unfolding(crate::specs::Applying::with_type))]
    pub(crate) fn declare_type(
        &mut self,
        alloc: Global,
        name: &Name,
        arity: usize,
    ) -> Result<(), Kind>
        ensures becomes { Becomes result self.new (with_type self.old name.now arity) }
        ensures grows { Grows self.old self.new }
    {
        // Memory holds no such list of arguments.
        let Ok(count) = u32::try_from(arity) else {
            return Err(Kind::Memory);
        };
        self.declare_theory_type(alloc, name, count)?;
        self.declare_syntax_type(name, arity)
    }

    fn declare_theory_constant(&mut self, alloc: Global, name: &Name, typ: &Typ) -> Result<(), Kind>
        ensures becomes { Becomes result self.new (declared sort.Constant (Constant name.now typ.now) (constant_refusal self.old.theory name.now typ.now) self.old) }
        ensures grows { Grows self.old self.new }
    {
        match self.theory.declare_const(alloc, name, typ) {
            Ok(()) => Ok(()),
            Err(fail) => Err(kind_of(Sort::Constant, fail)),
        }
    }

    fn declare_syntax_constant(&mut self, name: &Name, typ: &Typ) -> Result<(), Kind>
        ensures becomes { Becomes result self.new (in_syntax self.old (with_syntax_constant self.old.syntax name.now typ.now)) }
        ensures grows { Grows self.old self.new }
    {
        self.syntax.declare_constant(name, typ)
    }

    /// Declares a constant of a general type.
    #[tactic(auto, unfolding(crate::specs::Applying::with_constant))]
    pub(crate) fn declare_constant(
        &mut self,
        alloc: Global,
        name: &Name,
        typ: &Typ,
    ) -> Result<(), Kind>
        ensures becomes { Becomes result self.new (with_constant self.old name.now typ.now) }
        ensures grows { Grows self.old self.new }
    {
        self.declare_theory_constant(alloc, name, typ)?;
        self.declare_syntax_constant(name, typ)
    }

    fn declare_syntax_notation(&mut self, name: &Name, notation: &Notation) -> Result<(), Kind>
        ensures becomes { Becomes result self.new (in_syntax self.old (with_syntax_notation self.old.syntax name.now notation.now)) }
        ensures grows { Grows self.old self.new }
    {
        self.syntax.declare_notation(name, notation)
    }

    /// Declares a constant's notation, where it has one.
    #[tactic(auto, unfolding(crate::specs::Applying::with_notation))]
    pub(crate) fn declare_notation(
        &mut self,
        name: &Name,
        notation: &Option<Notation>,
    ) -> Result<(), Kind>
        ensures becomes { Becomes result self.new (with_notation self.old name.now notation.now) }
        ensures grows { Grows self.old self.new }
    {
        match notation {
            Some(notation) => self.declare_syntax_notation(name, notation),
            None => Ok(()),
        }
    }

    /// Puts the judgment in force.
    pub(crate) fn declare_judgment_name(&mut self, name: &Name) -> Result<(), Kind>
        ensures becomes { Becomes result self.new (in_syntax self.old (with_syntax_judgment self.old.syntax name.now)) }
        ensures grows { Grows self.old self.new }
    {
        self.syntax.declare_judgment(name)
    }

    /// Whether there is a judgment.
    pub(crate) fn has_judgment(&self) -> bool
        ensures { result ≡ is_some self.now.syntax.signature.judgment }
    {
        self.syntax.judgment().is_some()
    }

    fn declare_axiom(&mut self, alloc: Global, name: &Name, prop: &Term) -> Result<(), Kind>
        ensures becomes { Becomes result self.new (declared sort.Fact (Axiom name.now prop.now) (axiom_refusal self.old.theory name.now prop.now) self.old) }
        ensures grows { Grows self.old self.new }
        ensures facts { self.new.facts ≡ self.old.facts }
    {
        match self.theory.add_axiom(alloc, name, prop) {
            Ok(()) => Ok(()),
            Err(fail) => Err(kind_of(Sort::Fact, fail)),
        }
    }

    /// The theorem that a declared axiom is.
    #[tactic(auto, unfolding(crate::specs::Applying::axiom_fact))]
    fn axiom(&self, alloc: Global, name: &Name) -> Result<Thm, Kind>
        ensures { Answers result (axiom_fact self.now name.now) }
    {
        match axiom(alloc, &self.theory, name) {
            Ok(thm) => Ok(thm),
            Err(AxiomFail::UnknownAxiom(name)) => Err(Kind::Unknown(Sort::Fact, name)),
            Err(AxiomFail::Memory) => Err(Kind::Memory),
        }
    }

    /// Puts a fact of a new name last.
    pub(crate) fn push_fact(&mut self, name: Name, thms: Thms) -> Result<(), AllocError>
        requires new { fact_of self.old name ≡ None }
        ensures ok { OnOk result (self.new ≡ with_fact self.old name thms) }
        ensures err { OnErr result (self.new ≡ self.old) }
    {
        match self.facts.insert(name, thms) {
            Ok(_) => Ok(()),
            Err(_) => Err(AllocError),
        }
    }

    /// Declares the axiom of a proposition, whose variables become unknowns, and makes it a fact.
    #[tactic(auto, unfolding(crate::specs::Applying::axiom_of))]
    pub(crate) fn add_axiom(&mut self, alloc: Global, name: &Name, prop: &Term) -> Result<(), Kind>
        requires { fact_of self.old name.now ≡ None }
        ensures becomes { Becomes result self.new (axiom_of self.old name.now prop.now) }
        ensures grows { Grows self.old self.new }
    {
        let prop = general_prop(alloc, prop)?;
        self.declare_axiom(alloc, name, &prop)?;
        let mut thms = Thms::new(alloc);
        thms.push(self.axiom(alloc, name)?)?;
        self.push_fact(name.copy()?, thms)?;
        Ok(())
    }

    /// Sets an option anew.
    #[tactic(auto, unfolding(crate::specs::Applying::with_option))]
    pub(crate) fn set_option(&mut self, setting: Setting) -> Result<(), Kind>
        ensures becomes { Becomes result self.new (with_option self.old setting) }
        ensures unchanged { OnErr result (self.new ≡ self.old) }
    {
        self.options = self.options.with(setting)?;
        Ok(())
    }

    /// The facts with a role after an attribute.
    #[tactic(auto, unfolding(crate::specs::Applying::logic_with))]
    fn logic_with(&self, alloc: Global, attribute: Attribute, thm: &Thm) -> Result<Rc<Logic>, Kind>
        ensures { AnswersBy (λ l. l.value) result (logic_with (judgment_name self.now) self.now.logic attribute thm.now) }
    {
        let Attribute::Logic(role) = attribute else {
            return Ok(self.logic.clone()?);
        };
        let judgment = self.judgment_name(alloc)?;
        if !has_form(alloc, &judgment, role, thm.prop())? {
            return Err(Kind::Role(role_name(alloc, role)?));
        }
        Ok(Rc::new(alloc, with_role(alloc, &self.logic, role, thm)?)?)
    }

    /// Declares a theorem by an attribute.
    #[tactic(auto, unfolding(crate::specs::Applying::with_attribute))]
    pub(crate) fn declare_theorem(
        &mut self,
        alloc: Global,
        attribute: Attribute,
        thm: &Thm,
    ) -> Result<(), Kind>
        ensures becomes { Becomes result self.new (with_attribute self.old attribute thm.now) }
        ensures grows { Grows self.old self.new }
    {
        let logic = self.logic_with(alloc, attribute, thm)?;
        let thm = thm.copy(alloc)?;
        self.declarations.push(Declared { attribute, thm })?;
        self.logic = logic;
        Ok(())
    }

    /// How many lemmas were closed.
    pub(crate) fn closed(&self) -> usize
        ensures { result ≡ length self.now.lemmas }
    {
        self.lemmas.len()
    }

    /// Puts a closed lemma last.
    pub(crate) fn push_lemma(&mut self, thm: Thm) -> Result<(), AllocError>
        ensures ok { OnOk result (self.new ≡ with_closed self.old thm) }
        ensures err { OnErr result (self.new ≡ self.old) }
    {
        self.lemmas.push(thm)?;
        Ok(())
    }

    /// How much there is, and the roles that facts have.
    pub(crate) fn mark(&self) -> Result<Mark, AllocError>
        ensures { IfOk result (λ m. IsMark m self.now) }
    {
        Ok(Mark {
            theory: self.theory.mark(),
            syntax: self.syntax.mark(),
            facts: self.facts.len(),
            declarations: self.declarations.len(),
            logic: self.logic.clone()?,
        })
    }

    /// Takes out what came behind the mark, and puts its roles in force.
    pub(crate) fn undo_to(&mut self, mark: Mark)
        requires theory { mark.theory ≤ length self.old.theory }
        ensures { self.new ≡ record self.old { theory = take mark.theory self.old.theory; syntax = undone mark.syntax self.old.syntax; facts = take mark.facts self.old.facts; declarations = take mark.declarations self.old.declarations; logic = mark.logic.value } }
    {
        self.theory.undo_to(mark.theory);
        self.syntax.undo_to(mark.syntax);
        self.facts.truncate(mark.facts);
        self.declarations.truncate(mark.declarations);
        self.logic = mark.logic;
    }
}

/// Puts theorems behind others.
fn push_all(alloc: Global, all: &mut Thms, more: &Thms) -> Result<(), AllocError>
    ensures { OnOk result (all.new ≡ all.old ++ more.now) }
{
    for thm in more.as_slice() {
        all.push(thm.copy(alloc)?)?;
    }
    Ok(())
}
