//! The inferences that bring a subgoal into its form.
ghost use Rattle.std.specs.Prelude.{◌≡◌, [], ◌∷◌, ◌++◌, map, length, Some, true, IfOk};
ghost use Rattle.isa_terms.specs.Terms.{Free};
ghost use Rattle.isa_kernel.specs.Derived.{conclusion_behind};
ghost use Rattle.isa_kernel.specs.Inferences.{Answers};
ghost use Rattle.isa_subgoal.specs.Shape.{shaped};
ghost use Rattle.isa_subgoal.specs.Private.Reshaping.{opened, name_lengths, colons, regained, regaining, met_form, met_forms, reshaped_by, are_in_form};
ghost use Rattle.isa_subgoal.specs.Rules.{can_be_shaped, reshaped, Reshapes};

use crate::premises::conclusion_behind;
use crate::shape::{gathered, is_in_form, shaped, spelled};
use crate::steps::{eliminate, introduce, spliced};
use isa_kernel::{
    InferenceError, Thm, assume, forall_elim, forall_intr, implies_elim, implies_intr,
    instantiate_thm, make_implies, rename, split_imp, split_quantifier,
};
use isa_terms::{Inst, Name, Term, TermNode, Terms, Typ, copied};
use std::alloc::{AllocError, Global};

/// The terms, the innermost first, in the place of the binders round `depth` binders.
pub(crate) fn opened(
    alloc: Global,
    terms: &[Term],
    depth: u32,
    t: &Term,
) -> Result<Term, AllocError>
    ensures { IfOk result (λ r. r ≡ opened terms.now depth t.now) }
{
    match t.view() {
        TermNode::Const(_, _) | TermNode::Free(_, _) | TermNode::Unknown(_, _, _) => t.copy(),
        TermNode::Bound(number) => {
            if *number < depth {
                return t.copy();
            }
            match terms.get((*number - depth) as usize) {
                None => t.copy(),
                Some(term) => term.copy(),
            }
        }
        TermNode::Abs(name, typ, body) => {
            let under = depth.checked_add(1).ok_or(AllocError)?;
            let body = opened(alloc, terms, under, body)?;
            Term::new(alloc, TermNode::Abs(name.copy()?, typ.copy()?, body))
        }
        TermNode::App(fun, arg) => {
            let fun = opened(alloc, terms, depth, fun)?;
            let arg = opened(alloc, terms, depth, arg)?;
            Term::new(alloc, TermNode::App(fun, arg))
        }
    }
}

/// The lengths of the names of the free variables, added up.
fn name_lengths(t: &Term) -> Result<usize, AllocError>
    ensures { IfOk result (λ n. n ≡ name_lengths t.now) }
{
    match t.view() {
        TermNode::Free(name, _) => Ok(name.len()),
        TermNode::Const(_, _) | TermNode::Unknown(_, _, _) | TermNode::Bound(_) => Ok(0),
        TermNode::Abs(_, _, body) => name_lengths(body),
        TermNode::App(fun, arg) => {
            let first = name_lengths(fun)?;
            let second = name_lengths(arg)?;
            first.checked_add(second).ok_or(AllocError)
        }
    }
}

/// A name of that length.
#[tactic(auto, using(crate::proofs::Regaining::colons_zero, crate::proofs::Regaining::colons_step))]
fn colons(alloc: Global, length: usize) -> Result<Name, AllocError>
    ensures { IfOk result (λ n. n ≡ colons length) }
{
    if length == 0 {
        return Ok(Name::new(alloc));
    }
    let mut name = colons(alloc, length - 1)?;
    name.push(58)?;
    Ok(name)
}

/// The free variable whose name has that length.
pub(crate) fn variable(alloc: Global, length: usize, typ: &Typ) -> Result<Term, AllocError>
    ensures { IfOk result (λ t. t ≡ Free (colons length) typ.now) }
{
    let name = colons(alloc, length)?;
    Term::new(alloc, TermNode::Free(name, typ.copy()?))
}

/// The term before the others.
pub(crate) fn put_first(alloc: Global, first: &Term, others: &[Term]) -> Result<Terms, AllocError>
    ensures { IfOk result (λ r. r ≡ first.now ∷ others.now) }
{
    let mut one = Terms::new(alloc);
    one.push(first.copy()?)?;
    spliced(alloc, &[], one.as_slice(), others)
}

/// The proposition with the variables for its binders, from its parts, which the theorem says behind all `!!`s and
/// behind the assumptions; names of that length on are new.
#[tactic(auto, unfolding(crate::specs::Private::Reshaping::regained))]
fn regain(
    alloc: Global,
    length: usize,
    variables: &[Term],
    assumptions: &[Term],
    t: &Term,
    th: Thm,
) -> Result<Thm, InferenceError>
    ensures { Answers result (regained length variables.now assumptions.now t.now th) }
{
    match t.view() {
        TermNode::App(_, arg) => match arg.view() {
            TermNode::Abs(_, typ, body) => match split_quantifier(t) {
                None => eliminate(alloc, assumptions, th),
                Some((_, _)) => {
                    let more = length.checked_add(1).ok_or(AllocError)?;
                    let fixed = variable(alloc, length, typ)?;
                    let all = put_first(alloc, &fixed, variables)?;
                    let at = forall_elim(alloc, &fixed, &th)?;
                    let whole = regain(alloc, more, all.as_slice(), assumptions, body, at)?;
                    forall_intr(alloc, &fixed, &whole)
                }
            },
            _ => match split_imp(t) {
                None => eliminate(alloc, assumptions, th),
                Some((premise, _)) => {
                    let assumption = opened(alloc, variables, 0, premise)?;
                    let mut more = copied(alloc, assumptions)?;
                    more.push(assumption.copy()?)?;
                    let whole = regain(alloc, length, variables, more.as_slice(), arg, th)?;
                    implies_intr(alloc, &assumption, &whole)
                }
            },
        },
        _ => eliminate(alloc, assumptions, th),
    }
}

/// That the subgoal follows from what is in the form.
#[tactic(auto, unfolding(crate::specs::Private::Reshaping::regaining))]
fn regaining(alloc: Global, t: &Term) -> Result<Thm, InferenceError>
    ensures { Answers result (regaining t.now) }
{
    let plain = spelled(alloc, t)?;
    let form = gathered(alloc, &[], &plain)?;
    let first = name_lengths(&form)?;
    let second = name_lengths(&plain)?;
    let length = first.checked_add(second).ok_or(AllocError)?;
    let length = length.checked_add(1).ok_or(AllocError)?;
    let assumed = assume(alloc, &form)?;
    let whole = regain(alloc, length, &[], &[], &plain, assumed)?;
    let rule = implies_intr(alloc, &form, &whole)?;
    instantiate_thm(alloc, &Inst::new(alloc), &rule)
}

/// The subgoal under the one hypothesis that is what it is brought into.
#[tactic(auto, unfolding(crate::specs::Private::Reshaping::met_form))]
fn meet_form(alloc: Global, subgoal: &Term) -> Result<Thm, InferenceError>
    ensures { Answers result (met_form subgoal.now) }
{
    if is_in_form(subgoal) {
        return assume(alloc, subgoal);
    }
    let rule = regaining(alloc, subgoal)?;
    let mut form = Terms::new(alloc);
    form.push(shaped(alloc, subgoal)?)?;
    eliminate(alloc, form.as_slice(), rule)
}

/// What is behind the premises, each of which is met by what it is brought into.
#[tactic(auto, unfolding(crate::specs::Private::Reshaping::met_forms))]
fn meet_forms(alloc: Global, subgoals: &[Term], th: Thm) -> Result<Thm, InferenceError>
    ensures { Answers result (met_forms subgoals.now th) }
{
    match subgoals.split_first() {
        None => Ok(th),
        Some((first, rest)) => {
            let met = meet_form(alloc, first)?;
            let next = implies_elim(alloc, &th, &met)?;
            meet_forms(alloc, rest, next)
        }
    }
}

/// The subgoals brought into the form, behind those that are done.
fn all_shaped(alloc: Global, subgoals: &[Term], mut done: Terms) -> Result<Terms, AllocError>
    ensures { IfOk result (λ r. r ≡ done ++ map shaped subgoals.now) }
{
    match subgoals.split_first() {
        None => Ok(done),
        Some((first, rest)) => {
            done.push(shaped(alloc, first)?)?;
            all_shaped(alloc, rest, done)
        }
    }
}

/// The theorem with each of its premises in the form.
#[tactic(auto, unfolding(crate::specs::Private::Reshaping::reshaped_by))]
fn reshape_by_inferences(alloc: Global, subgoals: &[Term], th: &Thm) -> Result<Thm, InferenceError>
    ensures { Answers result (reshaped_by subgoals.now th.now) }
{
    let core = meet_forms(alloc, subgoals, th.copy(alloc)?)?;
    let forms = all_shaped(alloc, subgoals, Terms::new(alloc))?;
    introduce(alloc, forms.as_slice(), core)
}

/// Whether each has the form or is normal, so that it can be brought into it.
fn can_be_shaped(subgoals: &[Term]) -> bool
    ensures { result ≡ can_be_shaped subgoals.now }
{
    match subgoals.split_first() {
        None => true,
        Some((first, rest)) => (is_in_form(first) || first.is_normal()) && can_be_shaped(rest),
    }
}

/// Whether each has the form.
fn are_in_form(subgoals: &[Term]) -> bool
    ensures { result ≡ are_in_form subgoals.now }
{
    match subgoals.split_first() {
        None => true,
        Some((first, rest)) => is_in_form(first) && are_in_form(rest),
    }
}

/// The theorem with the call's names, where it has these premises and no hypotheses, and each premise has the form.
fn rename_premises(
    alloc: Global,
    subgoals: &[Term],
    conclusion: &Term,
    th: &Thm,
) -> Result<Thm, InferenceError>
    requires there { conclusion_behind subgoals.now th.now.prop ≡ Some conclusion.now }
    requires shapable { can_be_shaped subgoals.now ≡ true }
    requires formed { are_in_form subgoals.now ≡ true }
    requires bare { length th.now.hyps ≡ 0 }
    ensures { Answers result (reshaped subgoals.now th.now) }
{
    let prop = make_implies(alloc, subgoals, conclusion)?;
    rename(alloc, &prop, th)
}

/// The theorem with each of its premises in the form, where it has these premises.
fn reshape_premises(
    alloc: Global,
    subgoals: &[Term],
    conclusion: &Term,
    th: &Thm,
) -> Result<Thm, InferenceError>
    requires there { conclusion_behind subgoals.now th.now.prop ≡ Some conclusion.now }
    requires shapable { can_be_shaped subgoals.now ≡ true }
    ensures { Answers result (reshaped subgoals.now th.now) }
{
    th.is_derived();
    if th.hyps().len() == 0 && are_in_form(subgoals) {
        return rename_premises(alloc, subgoals, conclusion, th);
    }
    reshape_by_inferences(alloc, subgoals, th)
}

/// The theorem with each of its premises, which are those, in the form.
fn reshape_checked(alloc: Global, subgoals: &[Term], th: &Thm) -> Result<Thm, InferenceError>
    ensures { Answers result (reshaped subgoals.now th.now) }
{
    if !can_be_shaped(subgoals) {
        return Err(InferenceError::Shape);
    }
    let Some(conclusion) = conclusion_behind(subgoals, th.prop()) else {
        return Err(InferenceError::Shape);
    };
    reshape_premises(alloc, subgoals, conclusion, th)
}

/// The theorem with each of its premises, which are those, in the form of a subgoal.
///
/// Of `s1 ==> .. ==> sn ==> c` it is `t1 ==> .. ==> tn ==> c`, each t being what the s is brought into, without the hypotheses
/// that equal one of these. `Shape` comes exactly where the theorem has not those premises, and where one neither has the form
/// nor is normal.
pub fn reshape(alloc: Global, subgoals: &[Term], th: &Thm) -> Result<Thm, InferenceError>
    ensures defined { Answers result (reshaped subgoals.now th.now) }
    ensures theorem { Reshapes subgoals.now th.now result }
{
    reshape_checked(alloc, subgoals, th)
}
