//! Subgoals, and the goal that they imply by a theorem, in any form.
ghost use Rattle.std.specs.Prelude.{◌≡◌, ◌<◌, ◌≤◌, length, take, drop, true, Some, Ok, IfOk};
ghost use Rattle.isa_kernel.specs.Inferences.{keeps};
ghost use Rattle.isa_goal.specs.Follows.{instanced, IsNormalState};
ghost use Rattle.isa_goal.specs.Names.{normalised, reshaped, canon, naming};
ghost use Rattle.isa_goal.specs.Private.Granting.{IsGranted};
ghost use Rattle.isa_goal.specs.Private.Numbers.{NumbersFit};
ghost use Rattle.isa_goal.specs.Focus.{focused, put_back};
ghost use Rattle.isa_goal.specs.Goals.{Goals, IsStanding, has_parameter, theorem_of, Proves, Gives, Finishes, started, refined};

use crate::naming::{fixed_names, free_names, is_identity, name_type_unknowns, name_unknowns};
use crate::places::{around, with_last};
use isa_kernel::{InferenceError, Thm, assume, implies_intr, instantiate_thm};
use isa_subgoal::{cut, is_all, make_implies, reshape, rotate, spliced, split_leading, split_rule};
use isa_terms::{Inst, Term, Terms, copied, same_term, type_unknowns_of, unknowns_of};
use std::alloc::{AllocError, Global};
use std::marker::Model;

/// Subgoals, and the goal that they imply by a theorem, in any form.
#[derive(Drop)]
pub(crate) struct Draft {
    thm: Thm,
    subgoals: Terms,
    goal: Term,
}

impl Model for Draft {
    ghost use Rattle.isa_goal.specs.Goals.{Goals, goals_code, Proves};

    ghost Value = { Goals };

    ghost coded = { goals_code };

    ghost view = { λ a. record { subgoals = a.subgoals; goal = a.goal; base = a.thm.base } };

    ghost invariant = { λ a. Proves a.thm (record { subgoals = a.subgoals; goal = a.goal; base = a.thm.base }) };
}

impl Draft {
    /// The proposition as the only subgoal of itself.
    pub(crate) fn alone(alloc: Global, goal: &Term) -> Result<Draft, InferenceError>
        ensures { Gives result (started goal.now) }
    {
        let assumed = assume(alloc, goal)?;
        let thm = implies_intr(alloc, goal, &assumed)?;
        let mut subgoals = Terms::new(alloc);
        subgoals.push(goal.copy()?)?;
        Ok(Draft {
            thm,
            subgoals,
            goal: goal.copy()?,
        })
    }

    pub(crate) fn subgoals(&self) -> &Terms
        ensures { result.now ≡ self.now.subgoals }
    {
        &self.subgoals
    }

    pub(crate) fn goal(&self) -> &Term
        ensures { result.now ≡ self.now.goal }
    {
        &self.goal
    }

    /// The goal follows from the subgoals.
    pub(crate) fn is_standing(&self)
        ensures { IsStanding self.now }
    {
        self.thm.is_derived();
    }

    /// Whether the subgoal of that number is there and has a parameter.
    pub(crate) fn has_parameter(&self, i: usize) -> bool
        ensures { result ≡ has_parameter i self.now }
    {
        match around(self.subgoals.as_slice(), i) {
            None => false,
            Some((_, subgoal, _)) => is_all(subgoal),
        }
    }

    /// An equal draft that shares the nodes.
    pub(crate) fn copy(&self, alloc: Global) -> Result<Draft, AllocError>
        ensures { IfOk result (λ s. s ≡ self.now) }
    {
        Ok(Draft {
            thm: self.thm.copy(alloc)?,
            subgoals: copied(alloc, self.subgoals.as_slice())?,
            goal: self.goal.copy()?,
        })
    }

    /// The theorem of the goal; the draft comes back where a subgoal is left.
    pub(crate) fn finish(self) -> Result<Thm, Draft>
        ensures { Finishes self result }
    {
        if self.subgoals.len() > 0 {
            Err(self)
        } else {
            Ok(self.thm)
        }
    }

    /// The premises of a theorem in the place of a subgoal, which its conclusion equals.
    pub(crate) fn place(
        &self,
        alloc: Global,
        place: usize,
        th: &Thm,
        count: usize,
    ) -> Result<Draft, InferenceError>
        ensures { Gives result (refined place th.now count self.now) }
    {
        let Some((before, wanted, behind)) = around(self.subgoals.as_slice(), place) else {
            return Err(InferenceError::Shape);
        };
        let Some(rule) = split_rule(alloc, count, th)? else {
            return Err(InferenceError::Shape);
        };
        if !same_term(wanted, &rule.conclusion) {
            return Err(InferenceError::Shape);
        }
        let premises = rule.premises.as_slice();
        let thm = cut(alloc, before, premises, &self.thm, th)?;
        Ok(Draft {
            thm,
            subgoals: spliced(alloc, before, premises, behind)?,
            goal: self.goal.copy()?,
        })
    }

    /// The subgoal of that number alone, with the others as premises of the goal.
    pub(crate) fn alone_at(&self, alloc: Global, i: usize) -> Result<Draft, AllocError>
        requires first { 0 < i }
        requires last { i ≤ length self.now.subgoals }
        ensures { IfOk result (λ t. focused i self.now ≡ Some t) }
    {
        let Some((before, subgoal, behind)) = around(self.subgoals.as_slice(), i) else {
            unreachable!();
        };
        let mut subgoals = Terms::new(alloc);
        subgoals.push(subgoal.copy()?)?;
        let thm = granted(rotate(alloc, before, subgoals.as_slice(), &self.thm))?;
        let others = make_implies(alloc, behind, &self.goal)?;
        let goal = make_implies(alloc, before, &others)?;
        Ok(Draft {
            thm,
            subgoals,
            goal,
        })
    }

    /// So many premises taken out of the goal, the first ones in front of the subgoals.
    pub(crate) fn put_back(
        &self,
        alloc: Global,
        others: usize,
        front: usize,
    ) -> Result<Draft, AllocError>
        ensures { IfOk result (λ t. t ≡ put_back others front self.now) }
    {
        let taken = split_leading(others, &self.goal, Terms::new(alloc))?;
        let (before, behind) = split_at_most(taken.premises.as_slice(), front);
        let subgoals = self.subgoals.as_slice();
        let thm = granted(rotate(alloc, subgoals, before, &self.thm))?;
        let all = spliced(alloc, before, subgoals, behind)?;
        Ok(Draft {
            thm,
            subgoals: all,
            goal: taken.conclusion,
        })
    }

    /// The names of its unknowns and type unknowns by first occurrence.
    fn naming(&self, alloc: Global) -> Result<Inst, AllocError>
        ensures naming { IfOk result (λ s. s ≡ naming self.now) }
        ensures fit { IfOk result (λ s. NumbersFit self.now) }
    {
        let terms = with_last(alloc, self.subgoals.as_slice(), &self.goal)?;
        let types = type_unknowns_of(alloc, terms.as_slice())?;
        let unknowns = unknowns_of(alloc, terms.as_slice())?;
        let fixed = fixed_names(alloc, &self.goal)?;
        let free = free_names(alloc, &self.goal)?;
        let names = name_type_unknowns(
            alloc,
            fixed.as_slice(),
            1,
            types.as_slice(),
            Inst::new(alloc),
        )?;
        name_unknowns(alloc, free.as_slice(), 1, unknowns.as_slice(), names)
    }

    /// The draft under the instance.
    pub(crate) fn instance(&self, alloc: Global, inst: &Inst) -> Result<Draft, AllocError>
        requires { keeps inst.now.types inst.now.terms ≡ true }
        ensures { IfOk result (λ t. t ≡ instanced inst.now self.now) }
    {
        let thm = granted(instantiate_thm(alloc, inst, &self.thm))?;
        let Some(parts) = split_rule(alloc, self.subgoals.len(), &thm)? else {
            unreachable!();
        };
        Ok(Draft {
            thm,
            subgoals: parts.premises,
            goal: parts.conclusion,
        })
    }

    /// The draft with each subgoal in the form.
    fn reshaped(&self, alloc: Global) -> Result<Draft, AllocError>
        requires { IsNormalState self.now }
        ensures { IfOk result (λ t. t ≡ reshaped self.now) }
    {
        let thm = granted(reshape(alloc, self.subgoals.as_slice(), &self.thm))?;
        let Some(parts) = split_rule(alloc, self.subgoals.len(), &thm)? else {
            unreachable!();
        };
        Ok(Draft {
            thm,
            subgoals: parts.premises,
            goal: parts.conclusion,
        })
    }

    /// The canonical form.
    pub(crate) fn canon(&self, alloc: Global) -> Result<Draft, AllocError>
        ensures form { IfOk result (λ t. t ≡ canon self.now) }
        ensures fit { IfOk result (λ t. NumbersFit (reshaped (normalised self.now))) }
    {
        self.is_standing();
        let normal = self.instance(alloc, &Inst::new(alloc))?;
        let shaped = normal.reshaped(alloc)?;
        let names = shaped.naming(alloc)?;
        if is_identity(&names) {
            return Ok(shaped);
        }
        shaped.instance(alloc, &names)
    }
}

/// The theorem of an inference that doesn't refuse.
fn granted(answer: Result<Thm, InferenceError>) -> Result<Thm, AllocError>
    requires { IsGranted answer }
    ensures { IfOk result (λ th. answer ≡ Ok th) }
{
    match answer {
        Ok(th) => Ok(th),
        Err(InferenceError::Memory) => Err(AllocError),
        Err(InferenceError::Shape) => unreachable!(),
    }
}

/// The first terms, at most so many, and the others.
fn split_at_most(terms: &[Term], count: usize) -> (&[Term], &[Term])
    ensures front { result.0.now ≡ take count terms.now }
    ensures back { result.1.now ≡ drop count terms.now }
{
    if count < terms.len() {
        terms.split_at(count)
    } else {
        (terms, &[])
    }
}
