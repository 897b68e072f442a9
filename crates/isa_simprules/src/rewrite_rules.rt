//! The rewrite rules of a fact.
ghost use Rattle.std.specs.Prelude.{◌≡◌, ◌++◌, IfOk};
ghost use Rattle.isa_simprules.specs.RulesOf.{each, branches, is_equation, turned, equation_of, rules_of, AreEquationsUnder};
ghost use Rattle.isa_simprules.specs.Roles.{normal};

use crate::opening::opened;
use crate::roles::{by_facts, by_first, normal};
use isa_kernel::{Logic, Thm, Thms, split_eq};
use isa_subgoal::conclusion;
use std::alloc::{AllocError, Global};

/// How often a theorem may be taken apart.
const DEPTH: u32 = 100;

/// The branches of the theorem, which may still be taken apart so many times, behind what is done.
#[tactic(auto, using(crate::proofs::Counted::branches_zero, crate::proofs::Counted::branches_none, crate::proofs::Counted::branches_some))]
fn branches(
    alloc: Global,
    depth: u32,
    facts: &[Thm],
    th: &Thm,
    mut done: Thms,
) -> Result<Thms, AllocError>
    ensures { IfOk result (λ r. r ≡ done ++ branches depth facts.now th.now) }
{
    if depth == 0 {
        done.push(th.copy(alloc)?)?;
        return Ok(done);
    }
    let parts = by_facts(alloc, facts, th, Thms::new(alloc))?;
    if parts.len() == 0 {
        done.push(th.copy(alloc)?)?;
        return Ok(done);
    }
    let items = parts.as_slice();
    let mut all = done;
    for part in items {
        all = branches(alloc, depth - 1, facts, part, all)?;
    }
    Ok(all)
}

/// Whether it is `As ==> l == r`.
fn is_equation(th: &Thm) -> bool
    ensures { result ≡ is_equation th.now }
{
    split_eq(conclusion(th.prop())).is_some()
}

/// The theorem, where it is an equation, or what the first of the facts makes of it that can.
fn turned(alloc: Global, facts: &[Thm], th: &Thm) -> Result<Option<Thm>, AllocError>
    ensures { IfOk result (λ o. o ≡ turned facts.now th.now) }
{
    if is_equation(th) {
        Ok(Some(th.copy(alloc)?))
    } else {
        by_first(alloc, facts, th)
    }
}

/// The equation that the theorem is turned into, in normal form, behind what is done.
#[tactic(auto, using(crate::proofs::Counted::no_equation, crate::proofs::Counted::not_equation, crate::proofs::Counted::one_equation))]
fn add_equation(alloc: Global, facts: &[Thm], th: &Thm, mut done: Thms) -> Result<Thms, AllocError>
    ensures { IfOk result (λ r. r ≡ done ++ equation_of facts.now th.now) }
{
    let Some(made) = turned(alloc, facts, th)? else {
        return Ok(done);
    };
    let equation = normal(alloc, &made)?;
    if !is_equation(&equation) {
        return Ok(done);
    }
    done.push(equation)?;
    Ok(done)
}

/// The equations of the theorems, behind what is done.
fn add_equations(
    alloc: Global,
    facts: &[Thm],
    theorems: &[Thm],
    done: Thms,
) -> Result<Thms, AllocError>
    ensures { IfOk result (λ r. r ≡ done ++ each (equation_of facts.now) theorems.now) }
{
    match theorems.split_first() {
        None => Ok(done),
        Some((first, rest)) => {
            let done = add_equation(alloc, facts, first, done)?;
            add_equations(alloc, facts, rest, done)
        }
    }
}

/// The rules of a fact.
#[tactic(auto, unfolding(crate::specs::RulesOf::rules_of))]
fn prepared(alloc: Global, logic: &Logic, fact: &Thm) -> Result<Thms, AllocError>
    ensures { IfOk result (λ ths. ths ≡ rules_of logic.now fact.now) }
{
    let start = opened(alloc, normal(alloc, fact)?)?;
    let parts = branches(
        alloc,
        DEPTH,
        logic.atomize.as_slice(),
        &start,
        Thms::new(alloc),
    )?;
    add_equations(
        alloc,
        logic.meta.as_slice(),
        parts.as_slice(),
        Thms::new(alloc),
    )
}

/// The rewrite rules of a fact, as theorems `conditions ==> left == right`.
///
/// The outer `!!`s are opened into unknowns. While a fact of the role `atomize` has a first premise that matches the
/// conclusion, what all such facts make of it stands in its place, their further premises becoming conditions behind those
/// that are there; at depth 100 a branch is taken as it stands. Then a conclusion `l == r` stays, and the first fact of the
/// role `meta` whose premise matches turns another one into such. The hypotheses of each rule are among those of the fact.
#[tactic(auto, using(crate::proofs::Equations::all_equations))]
pub fn rules_of(alloc: Global, logic: &Logic, fact: &Thm) -> Result<Thms, AllocError>
    ensures rules { IfOk result (λ ths. ths ≡ rules_of logic.now fact.now) }
    ensures equations { IfOk result (λ ths. AreEquationsUnder fact.now.hyps ths) }
{
    prepared(alloc, logic, fact)
}
