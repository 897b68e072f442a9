//! The facts that a method names.
ghost use Rattle.std.specs.Prelude.{◌≡◌};
ghost use Rattle.isa_outer.specs.Methods.{At};
ghost use Rattle.isa_outer.specs.Private.Layers.{node_of};
ghost use Rattle.isa_theory.specs.MethodFacts.{modifier_facts, modifiers_facts, method_facts};
ghost use Rattle.isa_theory.specs.Applying.{all_known};
ghost use Rattle.isa_theory.specs.Results.{Answers};

use crate::context::Context;
use isa_outer::{Kind, Method, MethodNode, Modifier};
use isa_terms::Names;

/// A modifier's facts.
fn modifier_facts(modifier: &Modifier) -> &Names
    ensures { result.now ≡ modifier_facts modifier.now }
{
    match modifier {
        Modifier::SimpAdd(facts)
        | Modifier::SimpDel(facts)
        | Modifier::SimpOnly(facts)
        | Modifier::Cong(facts)
        | Modifier::Split(facts)
        | Modifier::Intro(facts)
        | Modifier::SafeIntro(facts)
        | Modifier::Elim(facts)
        | Modifier::SafeElim(facts)
        | Modifier::Dest(facts)
        | Modifier::SafeDest(facts)
        | Modifier::RuleDel(facts)
        | Modifier::Iff(facts) => facts,
    }
}

impl Context {
    /// Refuses the first of the facts that is not there.
    fn check_modifiers(&self, modifiers: &[Modifier]) -> Result<(), Kind>
        ensures { Answers result (all_known self.now (modifiers_facts modifiers.now)) }
    {
        for modifier in modifiers {
            self.check_facts(modifier_facts(modifier).as_slice())?;
        }
        Ok(())
    }

    /// Refuses the first fact of the method that is not there.
    #[tactic(auto, unfolding(crate::specs::MethodFacts::method_facts, crate::specs::MethodFacts::node_facts))]
    pub fn check_method(&self, method: &Method) -> Result<(), Kind>
        ensures { Answers result (all_known self.now (method_facts method.now)) }
    {
        match method.view() {
            MethodNode::Match(facts)
            | MethodNode::Rule(facts)
            | MethodNode::Erule(facts)
            | MethodNode::Drule(facts)
            | MethodNode::Frule(facts)
            | MethodNode::Split(facts) => self.check_facts(facts.as_slice()),
            MethodNode::Assumption => Ok(()),
            MethodNode::Subst(_, _, fact) => {
                self.known_fact(fact)?;
                Ok(())
            }
            MethodNode::Simp(_, modifiers)
            | MethodNode::Hypsubst(modifiers)
            | MethodNode::SafeStep(modifiers)
            | MethodNode::ClarifyStep(modifiers)
            | MethodNode::InstStep(modifiers)
            | MethodNode::Step(modifiers)
            | MethodNode::SlowStep(modifiers)
            | MethodNode::Clarify(modifiers)
            | MethodNode::Safe(modifiers)
            | MethodNode::Fast(modifiers)
            | MethodNode::Slow(modifiers)
            | MethodNode::Best(modifiers)
            | MethodNode::Blast(modifiers)
            | MethodNode::Iprover(modifiers)
            | MethodNode::Auto(modifiers) => self.check_modifiers(modifiers.as_slice()),
            MethodNode::Then(first, second) | MethodNode::OrElse(first, second) => {
                self.check_method(first)?;
                self.check_method(second)
            }
            MethodNode::Try(inner) | MethodNode::Plus(inner) => self.check_method(inner),
        }
    }
}
