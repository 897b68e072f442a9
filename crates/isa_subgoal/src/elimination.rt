//! Rules for elimination made of rules for destruction.
ghost use Rattle.std.specs.Prelude.{◌≡◌, [], IfOk};
ghost use Rattle.isa_kernel.specs.Inferences.{Answers};
ghost use Rattle.isa_subgoal.specs.Elimination.{conclusion_unknown, elimination_of};
ghost use Rattle.isa_subgoal.specs.Private.Steps.{eliminated_into};

use crate::premises::split_all_premises;
use crate::steps::{eliminate, introduce};
use isa_kernel::{InferenceError, Thm, assume, implies_elim, make_imp, prop_type};
use isa_terms::{Name, Term, TermNode, Terms, copied};
use std::alloc::{AllocError, Global};

/// The unknown `R` of that number, a proposition.
fn conclusion_unknown(alloc: Global, number: u32) -> Result<Term, AllocError>
    ensures { IfOk result (λ t. t ≡ conclusion_unknown number) }
{
    let name = Name::from_text(alloc, "R")?;
    let typ = prop_type(alloc)?;
    Term::new(alloc, TermNode::Unknown(name, number, typ))
}

/// From what is behind the premises, the goal that follows from it, under all these premises and that one.
#[tactic(auto, unfolding(crate::specs::Private::Steps::eliminated_into))]
fn eliminate_into(
    alloc: Global,
    premises: &[Term],
    case: &Term,
    all: &[Term],
    rule: &Thm,
) -> Result<Thm, InferenceError>
    ensures { Answers result (eliminated_into premises.now case.now all.now rule.now) }
{
    let conclusion = eliminate(alloc, premises, rule.copy(alloc)?)?;
    let assumed = assume(alloc, case)?;
    let goal = implies_elim(alloc, &assumed, &conclusion)?;
    introduce(alloc, all, goal)
}

/// A rule `A1 ==> .. ==> An ==> B` as `A1 ==> .. ==> An ==> (B ==> R) ==> R`, R being the unknown `R` of that number, which
/// is to be new.
pub fn make_elimination(alloc: Global, rule: &Thm, number: u32) -> Result<Thm, InferenceError>
    requires { rule.now.hyps ≡ [] }
    ensures { Answers result (Some (elimination_of number rule.now)) }
{
    rule.is_derived();
    let parts = split_all_premises(rule.prop(), Terms::new(alloc))?;
    let goal = conclusion_unknown(alloc, number)?;
    let case = make_imp(alloc, &parts.conclusion, &goal)?;
    let mut all = copied(alloc, parts.premises.as_slice())?;
    all.push(case.copy()?)?;
    eliminate_into(
        alloc,
        parts.premises.as_slice(),
        &case,
        all.as_slice(),
        rule,
    )
}
