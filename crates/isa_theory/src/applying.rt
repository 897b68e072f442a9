//! What each command does to the context.
ghost use Rattle.std.specs.Prelude.{◌≡◌, Ok, IfOk};
ghost use Rattle.std.specs.Option.{option_copied};
ghost use Rattle.isa_theory.specs.Applying.{all_known, constant_of, WithNewConstant, WithConstants, new_judgment, judgment_of, WithJudgment, WithAxiom, WithAxioms, with_labels, WithAxiomatization, with_lemmas, declared_facts, with_each_declared, with_declarations, with_wrapper, new_label, label_name, label_attributes, IsGoalOf, IsLemmaOf, WithGoal, Applied, line_of, Applies};
ghost use Rattle.isa_theory.specs.MethodFacts.{method_facts};
ghost use Rattle.isa_theory.specs.Private.Growing.{Grows, GrowsIfRefused, Becomes, MayBecome};
ghost use Rattle.isa_theory.specs.Results.{Answers};
ghost use Rattle.isa_theory.specs.Told.{May};

use crate::context::Context;
use crate::general::general_type;
use crate::kinds::new_name;
use crate::lemma::Lemma;
use isa_kernel::prop_type;
use isa_outer::{
    Attribute, Attributes, Axiom, Command, Constant, Declaration, Inner, Kind, Label, Method,
    Refused, Sort,
};
use isa_terms::{Name, Names, Term, Typ, same_typ, split_function};
use std::alloc::{AllocError, Global};

/// The name of a lemma, where it has one.
fn label_name(label: Option<&Label>) -> Result<Option<Name>, AllocError>
    ensures { IfOk result (λ name. name ≡ label_name (option_copied label.entry)) }
{
    match label {
        Some(label) => Ok(Some(label.name.copy()?)),
        None => Ok(None),
    }
}

/// The attributes of a lemma.
fn label_attributes(alloc: Global, label: Option<&Label>) -> Result<Attributes, AllocError>
    ensures { IfOk result (λ attributes. attributes ≡ label_attributes (option_copied label.entry)) }
{
    match label {
        Some(label) => copy_attributes(alloc, label.attributes.as_slice()),
        None => Ok(Attributes::new(alloc)),
    }
}

fn copy_attributes(alloc: Global, attributes: &[Attribute]) -> Result<Attributes, AllocError>
    ensures { IfOk result (λ copy. copy ≡ attributes.now) }
{
    let Some((last, front)) = attributes.split_last() else {
        return Ok(Attributes::new(alloc));
    };
    let mut copy = copy_attributes(alloc, front)?;
    copy.push(*last)?;
    Ok(copy)
}

impl Context {
    /// Declares a constant of the type of its text, with its notation.
    #[tactic(auto, unfolding(crate::specs::Applying::constant_of))]
    fn declare_typed(&mut self, alloc: Global, constant: &Constant, typ: &Typ) -> Result<(), Kind>
        ensures becomes { Becomes result self.new (constant_of self.old constant.now typ.now) }
        ensures grows { Grows self.old self.new }
    {
        let typ = general_type(alloc, typ)?;
        self.declare_constant(alloc, &constant.name, &typ)?;
        self.declare_notation(&constant.name, &constant.notation)
    }

    fn declare_new_constant(&mut self, alloc: Global, constant: &Constant) -> Result<(), Kind>
        ensures becomes { MayBecome result self.new (WithNewConstant self.old constant.now) }
        ensures grows { Grows self.old self.new }
    {
        self.new_constant(&constant.name)?;
        let typ = self.read_type(alloc, &constant.typ)?;
        self.declare_typed(alloc, constant, &typ)
    }

    fn declare_constants(&mut self, alloc: Global, constants: &[Constant]) -> Result<(), Kind>
        ensures becomes { MayBecome result self.new (WithConstants self.old constants.now) }
        ensures grows { Grows self.old self.new }
    {
        for constant in constants {
            self.declare_new_constant(alloc, constant)?;
        }
        Ok(())
    }

    /// The judgment comes once.
    #[tactic(auto, unfolding(crate::specs::Applying::new_judgment))]
    fn new_judgment(&self, name: &Name) -> Result<(), Kind>
        ensures { Answers result (new_judgment self.now name.now) }
    {
        self.new_constant(name)?;
        new_name(Sort::Judgment, name, self.has_judgment())
    }

    /// The type of the judgment is `T => prop`.
    #[tactic(auto, unfolding(crate::specs::Applying::judgment_of))]
    fn declare_judging(&mut self, alloc: Global, name: &Name, typ: &Typ) -> Result<(), Kind>
        ensures becomes { Becomes result self.new (judgment_of self.old name.now typ.now) }
        ensures grows { Grows self.old self.new }
    {
        let Some((_, range)) = split_function(typ) else {
            return Err(Kind::Types);
        };
        if !same_typ(range, &prop_type(alloc)?) {
            return Err(Kind::Types);
        }
        let typ = general_type(alloc, typ)?;
        self.declare_constant(alloc, name, &typ)?;
        self.declare_judgment_name(name)
    }

    fn declare_judgment(&mut self, alloc: Global, name: &Name, text: &Inner) -> Result<(), Kind>
        ensures becomes { MayBecome result self.new (WithJudgment self.old name.now text.now) }
        ensures grows { Grows self.old self.new }
    {
        self.new_judgment(name)?;
        let typ = self.read_type(alloc, text)?;
        self.declare_judging(alloc, name, &typ)
    }

    fn declare_axiom_of(&mut self, alloc: Global, axiom: &Axiom) -> Result<(), Kind>
        ensures becomes { MayBecome result self.new (WithAxiom self.old axiom.now) }
        ensures grows { Grows self.old self.new }
    {
        self.new_fact(&axiom.label.name)?;
        let prop = self.read_prop(alloc, false, &axiom.prop)?;
        self.add_axiom(alloc, &axiom.label.name, &prop)
    }

    fn add_axioms(&mut self, alloc: Global, axioms: &[Axiom]) -> Result<(), Kind>
        ensures becomes { MayBecome result self.new (WithAxioms self.old axioms.now) }
        ensures grows { Grows self.old self.new }
    {
        for axiom in axioms {
            self.declare_axiom_of(alloc, axiom)?;
        }
        Ok(())
    }

    /// The attributes of all the axioms act.
    fn declare_labels(&mut self, alloc: Global, axioms: &[Axiom]) -> Result<(), Kind>
        ensures becomes { Becomes result self.new (with_labels self.old axioms.now) }
        ensures grows { Grows self.old self.new }
    {
        for axiom in axioms {
            self.declare_fact(alloc, &axiom.label.name, &axiom.label.attributes)?;
        }
        Ok(())
    }

    fn axiomatize(&mut self, alloc: Global, axioms: &[Axiom]) -> Result<(), Kind>
        ensures becomes { MayBecome result self.new (WithAxiomatization self.old axioms.now) }
        ensures grows { Grows self.old self.new }
    {
        self.add_axioms(alloc, axioms)?;
        self.declare_labels(alloc, axioms)
    }

    #[tactic(auto, unfolding(crate::specs::Applying::with_lemmas))]
    fn name_facts(&mut self, alloc: Global, label: &Label, facts: &Names) -> Result<(), Kind>
        ensures becomes { Becomes result self.new (with_lemmas self.old label.now facts.now) }
        ensures grows { Grows self.old self.new }
    {
        self.new_fact(&label.name)?;
        let thms = self.known_facts(alloc, facts.as_slice())?;
        self.push_fact(label.name.copy()?, thms.copy(alloc)?)?;
        self.act(alloc, label.attributes.as_slice(), thms.as_slice())
    }

    fn check_declared(&self, declarations: &[Declaration]) -> Result<(), Kind>
        ensures { Answers result (all_known self.now (declared_facts declarations.now)) }
    {
        for declaration in declarations {
            self.known_fact(&declaration.fact)?;
        }
        Ok(())
    }

    fn declare_each(&mut self, alloc: Global, declarations: &[Declaration]) -> Result<(), Kind>
        ensures becomes { Becomes result self.new (with_each_declared self.old declarations.now) }
        ensures grows { Grows self.old self.new }
    {
        for declaration in declarations {
            self.declare_fact(alloc, &declaration.fact, &declaration.attributes)?;
        }
        Ok(())
    }

    #[tactic(auto, unfolding(crate::specs::Applying::with_declarations))]
    fn declare_facts(&mut self, alloc: Global, declarations: &[Declaration]) -> Result<(), Kind>
        ensures becomes { Becomes result self.new (with_declarations self.old declarations.now) }
        ensures grows { Grows self.old self.new }
    {
        self.check_declared(declarations)?;
        self.declare_each(alloc, declarations)
    }

    #[tactic(auto, unfolding(crate::specs::Applying::with_wrapper))]
    fn declare_wrapper(&self, method: &Method) -> Result<(), Kind>
        ensures { Becomes result self.now (with_wrapper self.now (method_facts method.now)) }
    {
        self.check_method(method)?;
        Err(Kind::NotBuilt)
    }

    fn new_label(&self, label: Option<&Label>) -> Result<(), Kind>
        ensures { Answers result (new_label self.now (option_copied label.entry)) }
    {
        match label {
            Some(label) => self.new_fact(&label.name),
            None => Ok(()),
        }
    }

    fn prop(
        &self,
        alloc: Global,
        schematic: bool,
        label: Option<&Label>,
        text: &Inner,
    ) -> Result<Term, Kind>
        ensures { May (IsGoalOf self.now schematic (option_copied label.entry) text.now) result }
    {
        self.new_label(label)?;
        self.read_prop(alloc, schematic, text)
    }

    /// The lemma of a new name that is begun with this text, in which unknowns may stand where it is schematic.
    pub fn lemma(
        &self,
        alloc: Global,
        schematic: bool,
        label: Option<&Label>,
        text: &Inner,
    ) -> Result<Lemma, Kind>
        ensures { May (IsLemmaOf self.now schematic (option_copied label.entry) text.now) result }
    {
        let goal = self.prop(alloc, schematic, label, text)?;
        Ok(Lemma {
            line: text.line,
            name: label_name(label)?,
            attributes: label_attributes(alloc, label)?,
            goal,
        })
    }

    fn check_goal(
        &self,
        alloc: Global,
        schematic: bool,
        label: Option<&Label>,
        text: &Inner,
    ) -> Result<(), Kind>
        ensures { MayBecome result self.now (WithGoal self.now schematic (option_copied label.entry) text.now) }
    {
        self.prop(alloc, schematic, label, text)?;
        Ok(())
    }

    /// What the command does, or a part of it where it is refused.
    #[tactic(auto, unfolding(crate::specs::Applying::Applied))]
    fn take(&mut self, alloc: Global, command: &Command) -> Result<(), Kind>
        ensures becomes { MayBecome result self.new (Applied self.old command.now) }
        ensures grows { GrowsIfRefused result self.old self.new }
    {
        match command {
            Command::Typedecl {
                variables,
                name,
                ..
            } => self.declare_type(alloc, name, variables.len()),
            Command::Judgment { name, typ, .. } => self.declare_judgment(alloc, name, typ),
            Command::Consts { constants, .. } => {
                self.declare_constants(alloc, constants.as_slice())
            },
            Command::Axiomatization { axioms, .. } => self.axiomatize(alloc, axioms.as_slice()),
            Command::Lemma { label, prop, .. } => {
                self.check_goal(alloc, false, label.as_ref(), prop)
            }
            Command::SchematicGoal { label, prop, .. } => {
                self.check_goal(alloc, true, label.as_ref(), prop)
            }
            Command::Lemmas { label, facts, .. } => self.name_facts(alloc, label, facts),
            Command::Declare { declarations, .. } => {
                self.declare_facts(alloc, declarations.as_slice())
            }
            Command::DeclareOption { setting, .. } => self.set_option(*setting),
            Command::Wrapper { method, .. } => self.declare_wrapper(method),
            Command::Apply { .. }
            | Command::By { .. }
            | Command::Done { .. }
            | Command::Back { .. }
            | Command::Oops { .. }
            | Command::Print { .. } => Err(Kind::NoProof),
        }
    }

    /// Takes a command that stands outside of proofs. The context is as it was after a refusal; a lemma
    /// changes nothing until it is stored.
    pub fn apply(&mut self, alloc: Global, command: &Command) -> Result<(), Refused>
        ensures { Applies command.now self.old result self.new }
    {
        let mark = self.mark()?;
        match self.take(alloc, command) {
            Ok(()) => Ok(()),
            Err(kind) => {
                self.undo_to(mark);
                Err(Refused {
                    line: line_of(command),
                    kind,
                })
            }
        }
    }
}

/// The line of a command's first word.
pub fn line_of(command: &Command) -> u64
    ensures { result ≡ line_of command.now }
{
    match command {
        Command::Typedecl { line, .. }
        | Command::Judgment { line, .. }
        | Command::Consts { line, .. }
        | Command::Axiomatization { line, .. }
        | Command::Lemma { line, .. }
        | Command::SchematicGoal { line, .. }
        | Command::Lemmas { line, .. }
        | Command::Declare { line, .. }
        | Command::DeclareOption { line, .. }
        | Command::Wrapper { line, .. }
        | Command::Apply { line, .. }
        | Command::By { line, .. }
        | Command::Done { line, .. }
        | Command::Back { line, .. }
        | Command::Oops { line, .. }
        | Command::Print { line, .. } => *line,
    }
}
