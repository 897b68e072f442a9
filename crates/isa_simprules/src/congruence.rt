//! Congruence rules.
ghost use Rattle.std.specs.Prelude.{◌≡◌, ◌++◌, ◌∷◌, [], IfOk, List, length, option_map, ◌≤◌};
ghost use Rattle.isa_simprules.specs.Congruences.{Premise, Cong, is_on_all, premise_of, premises_in, are_distinct_unknowns, occurrences, results, stand_together, are_of, argument_fits, arguments_fit, is_constant, is_congruence, cong_of, IsCong};
ghost use Rattle.isa_terms.specs.Pattern.{is_unknown, is_bound};

use isa_kernel::{Thm, split_eq};
use isa_subgoal::{Parameter, split_all_premises, split_subgoal};
use isa_terms::{Term, TermNode, Terms, args_of, copied, has, head, same_term};
use std::alloc::{AllocError, Global};
use std::marker::Model;

/// A premise `!!zs. Ps ==> x zs == y zs` of a congruence rule, for unknowns x and y.
#[derive(Drop)]
pub struct CongPremise {
    variables: Vec<Parameter>,
    added: Terms,
    left: Term,
    argument: Term,
    result: Term,
}

impl Model for CongPremise {
    ghost use Rattle.isa_simprules.specs.Congruences.{Premise, premise_code};

    ghost Value = { Premise };

    ghost coded = { premise_code };

    ghost view = { λ a. record { variables = a.variables.items; added = a.added; left = a.left; argument = a.argument; result = a.result } };
}

impl CongPremise {
    /// The variables zs, the outermost first.
    pub fn variables(&self) -> &[Parameter]
        ensures { result.now ≡ self.now.variables }
    {
        self.variables.as_slice()
    }

    /// The premises Ps, under the binders of the variables.
    pub fn added(&self) -> &[Term]
        ensures { result.now ≡ self.now.added }
    {
        self.added.as_slice()
    }

    /// `x zs`, under the binders of the variables.
    pub fn left(&self) -> &Term
        ensures { result.now ≡ self.now.left }
    {
        &self.left
    }

    /// The unknown x, an argument of the rule's left side.
    pub fn argument(&self) -> &Term
        ensures { result.now ≡ self.now.argument }
    {
        &self.argument
    }

    /// The unknown y, an argument of the rule's right side.
    pub fn result(&self) -> &Term
        ensures { result.now ≡ self.now.result }
    {
        &self.result
    }

    /// An equal one, which shares its terms.
    fn copy(&self, alloc: Global) -> Result<CongPremise, AllocError>
        ensures { IfOk result (λ p. p ≡ self.now) }
    {
        Ok(CongPremise {
            variables: copied_parameters(alloc, self.variables.as_slice())?,
            added: copied(alloc, self.added.as_slice())?,
            left: self.left.copy()?,
            argument: self.argument.copy()?,
            result: self.result.copy()?,
        })
    }
}

/// Equal parameters, which share their types.
fn copied_parameters(alloc: Global, parameters: &[Parameter]) -> Result<Vec<Parameter>, AllocError>
    ensures { IfOk result (λ r. r.items ≡ parameters.now) }
{
    let mut all = Vec::new(alloc);
    for parameter in parameters {
        let name = parameter.name.copy()?;
        let typ = parameter.typ.copy()?;
        all.push(Parameter { name, typ })?;
    }
    Ok(all)
}

/// Equal premises, which share their terms.
fn copied_premises(alloc: Global, premises: &[CongPremise]) -> Result<Vec<CongPremise>, AllocError>
    ensures { IfOk result (λ r. r.items ≡ premises.now) }
{
    let mut all = Vec::new(alloc);
    for premise in premises {
        all.push(premise.copy(alloc)?)?;
    }
    Ok(all)
}

/// A congruence rule `A1 ==> .. ==> An ==> c x1 .. xk == c y1 .. yk` with the parts of its premises, and its theorem.
#[derive(Drop)]
pub struct Cong {
    premises: Vec<CongPremise>,
    left: Term,
    right: Term,
    thm: Thm,
}

impl Model for Cong {
    ghost use Rattle.isa_simprules.specs.Congruences.{Cong, cong_code, IsCong};

    ghost Value = { Cong };

    ghost coded = { cong_code };

    ghost view = { λ a. record { premises = a.premises.items; left = a.left; right = a.right; thm = a.thm } };

    ghost invariant = { λ a. IsCong (record { premises = a.premises.items; left = a.left; right = a.right; thm = a.thm }) };
}

impl Cong {
    /// The premises, in their order.
    pub fn premises(&self) -> &[CongPremise]
        ensures { result.now ≡ self.now.premises }
    {
        self.premises.as_slice()
    }

    /// The left side.
    pub fn left(&self) -> &Term
        ensures { result.now ≡ self.now.left }
    {
        &self.left
    }

    /// The right side.
    pub fn right(&self) -> &Term
        ensures { result.now ≡ self.now.right }
    {
        &self.right
    }

    /// The theorem.
    pub fn thm(&self) -> &Thm
        ensures { result.now ≡ self.now.thm }
    {
        &self.thm
    }

    /// The rule is what its theorem says.
    pub fn recall_theorem(&self)
        ensures { IsCong self.now }
    {
        let _ = &self.thm;
    }

    /// An equal rule, which shares its terms.
    pub fn copy(&self, alloc: Global) -> Result<Cong, AllocError>
        ensures { IfOk result (λ c. c ≡ self.now) }
    {
        Ok(Cong {
            premises: copied_premises(alloc, self.premises.as_slice())?,
            left: self.left.copy()?,
            right: self.right.copy()?,
            thm: self.thm.copy(alloc)?,
        })
    }
}

/// Whether the term is the variable of that number.
fn is_bound(number: usize, t: &Term) -> bool
    ensures { result ≡ is_bound number t.now }
{
    match t.view() {
        TermNode::Bound(other) => number == *other as usize,
        _ => false,
    }
}

/// Whether it is an unknown applied to the variables count - 1, .., number of the binders round it.
fn is_on_all(count: usize, number: usize, t: &Term) -> Result<bool, AllocError>
    ensures { IfOk result (λ b. b ≡ is_on_all count number t.now) }
{
    match t.view() {
        TermNode::App(fun, arg) => {
            let next = number.checked_add(1).ok_or(AllocError)?;
            Ok(is_bound(number, arg) && is_on_all(count, next, fun)?)
        }
        TermNode::Unknown(_, _, _) => Ok(number == count),
        _ => Ok(false),
    }
}

/// The parts of a premise `!!zs. Ps ==> x zs == y zs`, where it is one.
fn premise_of(alloc: Global, t: &Term) -> Result<Option<CongPremise>, AllocError>
    ensures { IfOk result (λ o. o ≡ premise_of t.now) }
{
    let parts = split_subgoal(alloc, t)?;
    let Some((_, left, right)) = split_eq(&parts.conclusion) else {
        return Ok(None);
    };
    let count = parts.parameters.len();
    if !is_on_all(count, 0, left)? {
        return Ok(None);
    }
    if !is_on_all(count, 0, right)? {
        return Ok(None);
    }
    Ok(Some(CongPremise {
        left: left.copy()?,
        argument: head(left).copy()?,
        result: head(right).copy()?,
        variables: parts.parameters,
        added: parts.assumptions,
    }))
}

/// The premises with that one in front.
#[tactic(auto, using(crate::proofs::Premises::first_inserted))]
fn with_first(
    premise: CongPremise,
    mut others: Vec<CongPremise>,
) -> Result<Vec<CongPremise>, AllocError>
    ensures { IfOk result (λ r. r.items ≡ premise ∷ others.items) }
{
    others.insert(0, premise)?;
    Ok(others)
}

/// The parts of the premises, where each is such a one.
fn premises_in(alloc: Global, premises: &[Term]) -> Result<Option<Vec<CongPremise>>, AllocError>
    ensures { IfOk result (λ o. option_map {U = List Premise} (λ v. v.items) o ≡ premises_in premises.now) }
{
    let Some((first, rest)) = premises.split_first() else {
        return Ok(Some(Vec::new(alloc)));
    };
    let Some(premise) = premise_of(alloc, first)? else {
        return Ok(None);
    };
    let Some(others) = premises_in(alloc, rest)? else {
        return Ok(None);
    };
    Ok(Some(with_first(premise, others)?))
}

/// Whether the term is an unknown.
fn is_unknown(t: &Term) -> bool
    ensures { result ≡ is_unknown t.now }
{
    match t.view() {
        TermNode::Unknown(_, _, _) => true,
        _ => false,
    }
}

/// Whether the term is a constant.
pub fn is_constant(t: &Term) -> bool
    ensures { result ≡ is_constant t.now }
{
    match t.view() {
        TermNode::Const(_, _) => true,
        _ => false,
    }
}

/// Whether each of the terms is an unknown, and none stands twice.
pub fn are_distinct_unknowns(terms: &[Term]) -> bool
    ensures { result ≡ are_distinct_unknowns terms.now }
{
    match terms.split_first() {
        None => true,
        Some((first, rest)) => {
            is_unknown(first) && !has(rest, first) && are_distinct_unknowns(rest)
        }
    }
}

/// How often the term stands among those.
fn occurrences(t: &Term, terms: &[Term]) -> usize
    ensures count { result ≡ occurrences t.now terms.now }
    ensures bound { result ≤ length terms.now }
{
    match terms.split_first() {
        None => 0,
        Some((first, rest)) => {
            let others = occurrences(t, rest);
            if same_term(first, t) {
                others + 1
            } else {
                others
            }
        }
    }
}

/// The unknowns in which the premises end.
fn results(alloc: Global, premises: &[CongPremise]) -> Result<Terms, AllocError>
    ensures { IfOk result (λ r. r ≡ results premises.now) }
{
    let mut all = Terms::new(alloc);
    for premise in premises {
        all.push(premise.result.copy()?)?;
    }
    Ok(all)
}

/// Whether both terms stand at one place of the two lists.
fn stand_together(left: &Term, right: &Term, lefts: &[Term], rights: &[Term]) -> bool
    ensures { result ≡ stand_together left.now right.now lefts.now rights.now }
{
    match (lefts.split_first(), rights.split_first()) {
        (Some((x, xs)), Some((y, ys))) => {
            (same_term(x, left) && same_term(y, right)) || stand_together(left, right, xs, ys)
        }
        _ => false,
    }
}

/// Whether each premise ends in an argument of the left side and the argument at its place of the right side.
fn are_of(lefts: &[Term], rights: &[Term], premises: &[CongPremise]) -> bool
    ensures { result ≡ are_of lefts.now rights.now premises.now }
{
    for premise in premises {
        if !stand_together(&premise.argument, &premise.result, lefts, rights) {
            return false;
        }
    }
    true
}

/// Whether the argument of the right side is that of the left side and no premise ends in it, or an unknown of its own in
/// which one premise ends.
fn argument_fits(lefts: &[Term], rights: &[Term], ends: &[Term], left: &Term, right: &Term) -> bool
    ensures { result ≡ argument_fits lefts.now rights.now ends.now left.now right.now }
{
    if same_term(left, right) {
        return occurrences(right, ends) == 0;
    }
    is_unknown(right)
        && !has(lefts, right)
        && occurrences(right, rights) == 1
        && occurrences(right, ends) == 1
}

/// Whether there are as many arguments on both sides, and each fits.
fn arguments_fit(
    lefts: &[Term],
    rights: &[Term],
    ends: &[Term],
    left: &[Term],
    right: &[Term],
) -> bool
    ensures { result ≡ arguments_fit lefts.now rights.now ends.now left.now right.now }
{
    match (left.split_first(), right.split_first()) {
        (None, None) => true,
        (Some((x, xs)), Some((y, ys))) => {
            argument_fits(lefts, rights, ends, x, y) && arguments_fit(lefts, rights, ends, xs, ys)
        }
        _ => false,
    }
}

/// Whether the sides are one constant, applied to arguments that fit with the premises.
fn is_congruence(
    alloc: Global,
    premises: &[CongPremise],
    left: &Term,
    right: &Term,
) -> Result<bool, AllocError>
    ensures { IfOk result (λ b. b ≡ is_congruence premises.now left.now right.now) }
{
    if !(is_constant(head(left)) && same_term(head(left), head(right))) {
        return Ok(false);
    }
    let lefts = args_of(alloc, left)?;
    let rights = args_of(alloc, right)?;
    let ends = results(alloc, premises)?;
    let xs = lefts.as_slice();
    let ys = rights.as_slice();
    Ok(
        are_distinct_unknowns(xs)
            && are_of(xs, ys, premises)
            && arguments_fit(xs, ys, ends.as_slice(), xs, ys),
    )
}

/// The theorem as a congruence rule, where it is one.
#[tactic(auto, using(crate::proofs::Granting::cong_made))]
pub fn cong_of(alloc: Global, th: &Thm) -> Result<Option<Cong>, AllocError>
    ensures { IfOk result (λ o. o ≡ cong_of th.now) }
{
    let form = split_all_premises(th.prop(), Terms::new(alloc))?;
    let Some((_, left, right)) = split_eq(&form.conclusion) else {
        return Ok(None);
    };
    let Some(premises) = premises_in(alloc, form.premises.as_slice())? else {
        return Ok(None);
    };
    if !is_congruence(alloc, premises.as_slice(), left, right)? {
        return Ok(None);
    }
    let left = left.copy()?;
    let right = right.copy()?;
    let thm = th.copy(alloc)?;
    let cong = Cong {
        premises,
        left,
        right,
        thm,
    };
    Ok(Some(cong))
}
