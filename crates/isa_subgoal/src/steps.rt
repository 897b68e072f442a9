//! The inferences on theorems with premises.
ghost use Rattle.std.specs.Prelude.{◌≡◌, ◌++◌, map, IfOk};
ghost use Rattle.isa_kernel.specs.Inferences.{Answers};
ghost use Rattle.isa_subgoal.specs.Premises.{implies};
ghost use Rattle.isa_subgoal.specs.Private.Steps.{eliminated, introduced, cut_by, rotated_by, met_under, raised_by};
ghost use Rattle.isa_subgoal.specs.Rules.{cut, rotated, raised, Cuts, Rotates, Raises};

use isa_kernel::{InferenceError, Thm, assume, discharge, implies_elim, make_implies, undischarge};
use isa_terms::{Term, Terms, copied};
use std::alloc::{AllocError, Global};

/// What is behind the premises, under these as hypotheses.
pub(crate) fn eliminate(alloc: Global, premises: &[Term], th: Thm) -> Result<Thm, InferenceError>
    ensures { Answers result (eliminated premises.now th) }
{
    th.is_derived();
    undischarge(alloc, premises, &th)
}

/// The premises before the theorem, and out of its hypotheses.
pub(crate) fn introduce(alloc: Global, premises: &[Term], th: Thm) -> Result<Thm, InferenceError>
    ensures { Answers result (introduced premises.now th) }
{
    discharge(alloc, premises, &th)
}

/// The theorem with a rule's premises in the place of the premise behind the first ones.
#[tactic(auto, unfolding(crate::specs::Private::Steps::cut_by))]
pub(crate) fn cut_by_inferences(
    alloc: Global,
    before: &[Term],
    premises: &[Term],
    th: &Thm,
    rule: &Thm,
) -> Result<Thm, InferenceError>
    ensures { Answers result (cut_by before.now premises.now th.now rule.now) }
{
    let front = eliminate(alloc, before, th.copy(alloc)?)?;
    let met = eliminate(alloc, premises, rule.copy(alloc)?)?;
    let middle = implies_elim(alloc, &front, &met)?;
    let inner = introduce(alloc, premises, middle)?;
    introduce(alloc, before, inner)
}

/// The theorem with a rule's premises in the place of the premise behind the first ones, which the rule's conclusion equals.
///
/// Of `us ==> a ==> c` and `bs ==> a` it is `us ==> bs ==> c`, by the axioms of both, under the hypotheses of both but those
/// that equal one of us and bs. `Shape` comes exactly where the theorem has not the premises us and one more, where the rule
/// has not the premises bs, and where what stands behind these is not that premise.
pub fn cut(
    alloc: Global,
    before: &[Term],
    premises: &[Term],
    th: &Thm,
    rule: &Thm,
) -> Result<Thm, InferenceError>
    ensures defined { Answers result (cut before.now premises.now th.now rule.now) }
    ensures theorem { Cuts before.now premises.now th.now rule.now result }
{
    th.is_derived();
    rule.is_derived();
    cut_by_inferences(alloc, before, premises, th, rule)
}

/// Two blocks of leading premises, the second one put in front.
#[tactic(auto, unfolding(crate::specs::Private::Steps::rotated_by))]
fn rotate_by_inferences(
    alloc: Global,
    first: &[Term],
    second: &[Term],
    th: &Thm,
) -> Result<Thm, InferenceError>
    ensures { Answers result (rotated_by first.now second.now th.now) }
{
    let opened = eliminate(alloc, first, th.copy(alloc)?)?;
    let bare = eliminate(alloc, second, opened)?;
    let inner = introduce(alloc, first, bare)?;
    introduce(alloc, second, inner)
}

/// The theorem with the second block of its leading premises in front of the first one.
///
/// Of `us ==> vs ==> c` it is `vs ==> us ==> c`, without the hypotheses that equal one of us and vs. `Shape` comes exactly
/// where the theorem has not the premises us and then vs.
pub fn rotate(
    alloc: Global,
    first: &[Term],
    second: &[Term],
    th: &Thm,
) -> Result<Thm, InferenceError>
    ensures defined { Answers result (rotated first.now second.now th.now) }
    ensures theorem { Rotates first.now second.now th.now result }
{
    th.is_derived();
    rotate_by_inferences(alloc, first, second, th)
}

/// The terms, each under the premises, behind those that are done.
fn put_under(
    alloc: Global,
    premises: &[Term],
    terms: &[Term],
    mut done: Terms,
) -> Result<Terms, AllocError>
    ensures { IfOk result (λ r. r ≡ done ++ map (implies premises.now) terms.now) }
{
    match terms.split_first() {
        None => Ok(done),
        Some((first, rest)) => {
            done.push(make_implies(alloc, premises, first)?)?;
            put_under(alloc, premises, rest, done)
        }
    }
}

/// What is behind the premises, each of which is met under the assumptions.
#[tactic(auto, unfolding(crate::specs::Private::Steps::met_under))]
fn meet_under(
    alloc: Global,
    assumptions: &[Term],
    premises: &[Term],
    th: Thm,
) -> Result<Thm, InferenceError>
    ensures { Answers result (met_under assumptions.now premises.now th) }
{
    match premises.split_first() {
        None => Ok(th),
        Some((first, rest)) => {
            let wanted = make_implies(alloc, assumptions, first)?;
            let assumed = assume(alloc, &wanted)?;
            let met = eliminate(alloc, assumptions, assumed)?;
            let next = implies_elim(alloc, &th, &met)?;
            meet_under(alloc, assumptions, rest, next)
        }
    }
}

/// The theorem with its premises and what is behind them under the assumptions.
#[tactic(auto, unfolding(crate::specs::Private::Steps::raised_by))]
pub(crate) fn raise_by_inferences(
    alloc: Global,
    assumptions: &[Term],
    premises: &[Term],
    th: Thm,
) -> Result<Thm, InferenceError>
    ensures { Answers result (raised_by assumptions.now premises.now th) }
{
    let core = meet_under(alloc, assumptions, premises, th)?;
    let inner = introduce(alloc, assumptions, core)?;
    let lifted = put_under(alloc, assumptions, premises, Terms::new(alloc))?;
    introduce(alloc, lifted.as_slice(), inner)
}

/// The rule of those premises under the assumptions: each premise and the conclusion.
///
/// Of `p1 ==> .. ==> pn ==> c` it is `(hs ==> p1) ==> .. ==> (hs ==> pn) ==> hs ==> c`, without the hypotheses that equal one
/// of these premises or an assumption. `Shape` comes exactly where the rule has not those premises, and where an assumption
/// is no proposition.
pub fn raise_rule(
    alloc: Global,
    assumptions: &[Term],
    premises: &[Term],
    rule: Thm,
) -> Result<Thm, InferenceError>
    ensures defined { Answers result (raised assumptions.now premises.now rule) }
    ensures theorem { Raises assumptions.now premises.now rule result }
{
    rule.is_derived();
    raise_by_inferences(alloc, assumptions, premises, rule)
}

/// The three lists behind one another.
pub fn spliced(
    alloc: Global,
    before: &[Term],
    between: &[Term],
    behind: &[Term],
) -> Result<Terms, AllocError>
    ensures { IfOk result (λ r. r ≡ before.now ++ (between.now ++ behind.now)) }
{
    let mut all = copied(alloc, before)?;
    for t in between {
        all.push(t.copy()?)?;
    }
    for last in behind {
        all.push(last.copy()?)?;
    }
    Ok(all)
}
