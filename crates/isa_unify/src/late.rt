//! The state of a unification, in which what was solved is put in late: in an equation when it is
//! taken, and in the answer at the end.

ghost use Rattle.std.specs.Prelude.{◌≡◌, IfOk, OnOk};
ghost use Rattle.isa_unify.specs.Late.{put_in, with_all, types_with_all, put_in_terms, terms_with_all, last, with_parts, put_in_state, Takes};
ghost use Rattle.isa_unify.specs.Unification.{filled_state, retyped_state, after_new, with_first};
ghost use Rattle.isa_unify.specs.declared.progress.Answer.TheVariants.{Yes};

use crate::equation::{Equation, Equations};
use crate::filling::{
    filled_entries, filled_equation, retyped_entries, retyped_equation, retyped_types,
};
use crate::progress::{Answer, State};
use isa_terms::{TermEntries, TypeEntries, TypeEntry};
use std::alloc::{AllocError, Global};
use std::marker::Model;

/// What a step solved.
#[derive(Drop)]
pub enum Solution {
    /// Types for type unknowns.
    Types(TypeEntries),
    /// Terms for unknowns.
    Terms(TermEntries),
}

/// An equation that waits for its turn.
#[derive(Drop)]
pub struct Waiting {
    pub equation: Equation,
    /// How many solutions those behind it had missed when it came.
    pub missed: usize,
}

/// The equation with the solution.
fn put_in(alloc: Global, solution: &Solution, equation: &Equation) -> Result<Equation, AllocError>
    ensures { IfOk result (λ e. e ≡ put_in solution.now equation.now) }
{
    match solution {
        Solution::Types(types) => retyped_equation(alloc, types.as_slice(), equation),
        Solution::Terms(terms) => filled_equation(alloc, terms.as_slice(), equation),
    }
}

/// The equation with the solutions, one after the other.
fn with_all(alloc: Global, log: &[Solution], equation: Equation) -> Result<Equation, AllocError>
    ensures { IfOk result (λ e. e ≡ with_all log.now equation) }
{
    let mut current = equation;
    for solution in log {
        current = put_in(alloc, solution, &current)?;
    }
    Ok(current)
}

/// What the type unknowns that are asked for become by the solutions.
fn types_with_all(
    alloc: Global,
    log: &[Solution],
    types: TypeEntries,
) -> Result<TypeEntries, AllocError>
    ensures { IfOk result (λ ts. ts ≡ types_with_all log.now types) }
{
    let mut current = types;
    for solution in log {
        if let Solution::Types(entries) = solution {
            current = retyped_types(alloc, entries.as_slice(), current.as_slice())?;
        }
    }
    Ok(current)
}

/// The entries with the solution.
fn put_in_terms(
    alloc: Global,
    solution: &Solution,
    terms: &TermEntries,
) -> Result<TermEntries, AllocError>
    ensures { IfOk result (λ ts. ts ≡ put_in_terms solution.now terms.now) }
{
    match solution {
        Solution::Types(types) => retyped_entries(alloc, types.as_slice(), terms.as_slice()),
        Solution::Terms(found) => filled_entries(alloc, found.as_slice(), terms.as_slice()),
    }
}

/// What the unknowns that are asked for become by the solutions.
fn terms_with_all(
    alloc: Global,
    log: &[Solution],
    terms: TermEntries,
) -> Result<TermEntries, AllocError>
    ensures { IfOk result (λ ts. ts ≡ terms_with_all log.now terms) }
{
    let mut current = terms;
    for solution in log {
        current = put_in_terms(alloc, solution, &current)?;
    }
    Ok(current)
}

/// The same entries.
fn copied(alloc: Global, types: &[TypeEntry]) -> Result<TypeEntries, AllocError>
    ensures { IfOk result (λ r. r ≡ types.now) }
{
    let mut done = TypeEntries::new(alloc);
    for entry in types {
        done.push(TypeEntry {
            name: entry.name.copy()?,
            number: entry.number,
            typ: entry.typ.copy()?,
        })?;
    }
    Ok(done)
}

/// The last solutions, so many of them, or all.
fn last(count: usize, log: &[Solution]) -> &[Solution]
    ensures { result.now ≡ last count log.now }
{
    &log[log.len().saturating_sub(count)..]
}

/// The state of a unification: the equations that wait, and what was solved.
#[derive(Drop)]
pub struct Late {
    /// The equations, the first one on top.
    stack: Vec<Waiting>,
    /// What was solved, in order.
    log: Vec<Solution>,
    /// How many solutions the first equation has missed.
    missed: usize,
    /// What is asked for, without the solutions.
    types: TypeEntries,
    terms: TermEntries,
    next: u32,
    left: u32,
}

impl Model for Late {
    ghost use Rattle.isa_unify.specs.declared.progress.State.{State};

    ghost Value = { State };

    ghost use Rattle.isa_unify.specs.StateCodes.{state_code};
    ghost use Rattle.isa_unify.specs.LateStates.{state_of};

    ghost coded = { state_code };

    ghost view = { state_of };
}

impl Late {
    /// The state, in which nothing was solved yet.
    #[tactic(auto, using(crate::proofs::LateSteps::started))]
    pub fn of(alloc: Global, start: State) -> Result<Late, AllocError>
        ensures { IfOk result (λ late. late ≡ start) }
    {
        let State {
            equations,
            types,
            terms,
            next,
            left,
        } = start;
        let mut late = Late {
            stack: Vec::new(alloc),
            log: Vec::new(alloc),
            missed: 0,
            types,
            terms,
            next,
            left,
        };
        late.put_all_first(equations)?;
        Ok(late)
    }

    /// Puts the equation before the others.
    #[tactic(auto, using(crate::proofs::LateSteps::put_before))]
    pub fn put_first(&mut self, equation: Equation) -> Result<(), AllocError>
        ensures { OnOk result (self.new ≡ with_first equation self.old) }
    {
        let missed = self.missed;
        self.stack.push(Waiting { equation, missed })?;
        self.missed = 0;
        Ok(())
    }

    /// Puts the equations before the others, in their order.
    pub fn put_all_first(&mut self, mut equations: Equations) -> Result<(), AllocError>
        ensures { OnOk result (self.new ≡ with_parts equations self.old) }
    {
        match equations.take_first() {
            None => Ok(()),
            Some(first) => {
                self.put_all_first(equations)?;
                self.put_first(first)
            }
        }
    }

    /// Takes the first equation, with what was solved.
    pub fn take_first(&mut self, alloc: Global) -> Result<Option<Equation>, AllocError>
        ensures { IfOk result (λ first. Takes first self.old self.new) }
    {
        match self.stack.pop() {
            None => Ok(None),
            Some(waiting) => {
                let Waiting { equation, missed } = waiting;
                let first = with_all(alloc, last(self.missed, &self.log), equation)?;
                self.missed = self.missed.checked_add(missed).ok_or(AllocError)?;
                Ok(Some(first))
            }
        }
    }

    /// The state with what was solved.
    fn put_in(mut self, solution: Solution) -> Result<Late, AllocError>
        ensures { IfOk result (λ late. late ≡ put_in_state solution self) }
    {
        self.log.push(solution)?;
        self.missed = self.missed.checked_add(1).ok_or(AllocError)?;
        Ok(self)
    }

    /// The state with terms for unknowns.
    pub fn filled(self, terms: TermEntries) -> Result<Late, AllocError>
        ensures { IfOk result (λ late. late ≡ filled_state terms self) }
    {
        self.put_in(Solution::Terms(terms))
    }

    /// The state with types for type unknowns; without any it stays.
    #[tactic(auto, using(crate::proofs::NoTypes::retyped_by_none))]
    pub fn retyped(self, alloc: Global, types: &[TypeEntry]) -> Result<Late, AllocError>
        ensures { IfOk result (λ late. late ≡ retyped_state types.now self) }
    {
        if types.is_empty() {
            return Ok(self);
        }
        self.put_in(Solution::Types(copied(alloc, types)?))
    }

    /// What is answered where no equation is left.
    pub fn answer(self, alloc: Global) -> Result<Answer, AllocError>
        ensures { IfOk result (λ answer. answer ≡ Yes self.types self.terms self.next) }
    {
        let Late {
            log,
            types,
            terms,
            next,
            ..
        } = self;
        let types = types_with_all(alloc, &log, types)?;
        let terms = terms_with_all(alloc, &log, terms)?;
        Ok(Answer::Yes(types, terms, next))
    }

    /// The number of the next new unknown.
    pub fn next(&self) -> u32
        ensures { result ≡ self.now.next }
    {
        self.next
    }

    /// How many new unknowns may still come.
    pub fn left(&self) -> u32
        ensures { result ≡ self.now.left }
    {
        self.left
    }

    /// The state after the number of a new unknown was taken.
    pub fn after_new(mut self) -> Result<Late, AllocError>
        ensures { IfOk result (λ late. late ≡ after_new self) }
    {
        self.next = self.next.checked_add(1).ok_or(AllocError)?;
        self.left = self.left.saturating_sub(1);
        Ok(self)
    }
}
