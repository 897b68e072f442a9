//! The roles of facts for the logic.
ghost use Rattle.std.specs.Prelude.{◌≡◌, ◌++◌, ◌∷◌, [], Some, None, IfOk, OnOk, option_map};
ghost use Rattle.isa_terms.specs.Terms.{App};
ghost use Rattle.isa_terms.specs.Pattern.{is_unknown};
ghost use Rattle.isa_kernel.specs.Logic.{imp};
ghost use Rattle.isa_theory.specs.Roles.{judged, unary, binary, function_part, judged_unary, judged_binary, last_judged, are_two_letters, are_three_letters, is_close, is_close_asm, is_atomize, is_meta, is_swap, is_classical, is_not_elim, is_mp, is_iff_d2, is_subst, is_sym, has_form, states, with_theorem, with_role, role_name};

use isa_kernel::{Logic, Thm, Thms, make_imp, split_eq, split_imp};
use isa_outer::Role;
use isa_terms::{Name, Term, TermNode, is_pattern, same_term};
use std::alloc::{AllocError, Global};

fn apply(alloc: Global, fun: &Term, arg: &Term) -> Result<Term, AllocError>
    ensures { IfOk result (λ t. t ≡ App fun.now arg.now) }
{
    Term::new(alloc, TermNode::App(fun.copy()?, arg.copy()?))
}

/// `J (c a)`
fn judge_unary(alloc: Global, j: &Term, c: &Term, a: &Term) -> Result<Term, AllocError>
    ensures { IfOk result (λ t. t ≡ App j.now (App c.now a.now)) }
{
    apply(alloc, j, &apply(alloc, c, a)?)
}

/// `J (c a b)`
fn judge_binary(alloc: Global, j: &Term, c: &Term, a: &Term, b: &Term) -> Result<Term, AllocError>
    ensures { IfOk result (λ t. t ≡ App j.now (App (App c.now a.now) b.now)) }
{
    judge_unary(alloc, j, &apply(alloc, c, a)?, b)
}

/// `A ==> B ==> C`
fn make_rule(alloc: Global, a: &Term, b: &Term, c: &Term) -> Result<Term, AllocError>
    ensures { IfOk result (λ t. t ≡ imp a.now (imp b.now c.now)) }
{
    make_imp(alloc, a, &make_imp(alloc, b, c)?)
}

/// J and t of `J t`.
fn judged<'t>(judgment: &Name, t: &'t Term) -> Option<(&'t Term, &'t Term)>
    ensures { option_map (λ p. (p.0.now, p.1.now)) result ≡ judged judgment.now t.now }
{
    let TermNode::App(fun, arg) = t.view() else {
        return None;
    };
    match fun.view() {
        TermNode::Const(name, _) if name.same(judgment) => Some((fun, arg)),
        _ => None,
    }
}

/// c and a of `c a`, for a constant c.
fn unary(t: &Term) -> Option<(&Term, &Term)>
    ensures { option_map (λ p. (p.0.now, p.1.now)) result ≡ unary t.now }
{
    let TermNode::App(fun, arg) = t.view() else {
        return None;
    };
    match fun.view() {
        TermNode::Const(_, _) => Some((fun, arg)),
        _ => None,
    }
}

/// c, a and b of `c a b`, for a constant c.
fn binary(t: &Term) -> Option<(&Term, &Term, &Term)>
    ensures { option_map (λ p. (p.0.now, p.1.now, p.2.now)) result ≡ binary t.now }
{
    let TermNode::App(fun, right) = t.view() else {
        return None;
    };
    let (constant, left) = unary(fun)?;
    Some((constant, left, right))
}

/// f of `f a`.
fn function_part(t: &Term) -> Option<&Term>
    ensures { option_map (λ p. p.now) result ≡ function_part t.now }
{
    match t.view() {
        TermNode::App(fun, _) => Some(fun),
        _ => None,
    }
}

/// J, N and P of `J (N P)`.
fn judged_unary<'t>(judgment: &Name, t: &'t Term) -> Option<(&'t Term, &'t Term, &'t Term)>
    ensures { option_map (λ p. (p.0.now, p.1.now, p.2.now)) result ≡ judged_unary judgment.now t.now }
{
    let (j, inner) = judged(judgment, t)?;
    let (constant, arg) = unary(inner)?;
    Some((j, constant, arg))
}

/// J, I, P and Q of `J (I P Q)`.
fn judged_binary<'t>(
    judgment: &Name,
    t: &'t Term,
) -> Option<(&'t Term, &'t Term, &'t Term, &'t Term)>
    ensures { option_map (λ p. (p.0.now, p.1.now, p.2.now, p.3.now)) result ≡ judged_binary judgment.now t.now }
{
    let (j, inner) = judged(judgment, t)?;
    let (constant, left, right) = binary(inner)?;
    Some((j, constant, left, right))
}

/// R of `A ==> B ==> J R`.
fn last_judged<'t>(judgment: &Name, t: &'t Term) -> Option<&'t Term>
    ensures { option_map (λ p. p.now) result ≡ last_judged judgment.now t.now }
{
    let (_, rest) = split_imp(t)?;
    let (_, last) = split_imp(rest)?;
    let (_, inner) = judged(judgment, last)?;
    Some(inner)
}

fn is_unknown(t: &Term) -> bool
    ensures { result ≡ is_unknown t.now }
{
    match t.view() {
        TermNode::Unknown(_, _, _) => true,
        _ => false,
    }
}

/// Whether they are distinct unknowns.
fn are_two_letters(t: &Term, u: &Term) -> bool
    ensures { result ≡ are_two_letters t.now u.now }
{
    is_unknown(t) && is_unknown(u) && !same_term(t, u)
}

/// Whether they are distinct unknowns.
fn are_three_letters(t: &Term, u: &Term, v: &Term) -> bool
    ensures { result ≡ are_three_letters t.now u.now v.now }
{
    are_two_letters(t, u) && are_two_letters(t, v) && are_two_letters(u, v)
}

/// No premise, and a pattern.
fn is_close(t: &Term) -> bool
    ensures { result ≡ is_close t.now }
{
    split_imp(t).is_none() && is_pattern(t)
}

/// `A ==> J R`, where A is a pattern and R an unknown.
fn is_close_asm(judgment: &Name, t: &Term) -> bool
    ensures { result ≡ is_close_asm judgment.now t.now }
{
    let Some((premise, conclusion)) = split_imp(t) else {
        return false;
    };
    let Some((_, inner)) = judged(judgment, conclusion) else {
        return false;
    };
    is_unknown(inner) && is_pattern(premise)
}

/// At least one premise, of which the first is a pattern.
fn is_atomize(t: &Term) -> bool
    ensures { result ≡ is_atomize t.now }
{
    let Some((premise, _)) = split_imp(t) else {
        return false;
    };
    is_pattern(premise)
}

/// `A ==> l == r`, where A is a pattern.
fn is_meta(t: &Term) -> bool
    ensures { result ≡ is_meta t.now }
{
    let Some((premise, conclusion)) = split_imp(t) else {
        return false;
    };
    split_eq(conclusion).is_some() && is_pattern(premise)
}

/// `J (N P) ==> (J (N R) ==> J P) ==> J R`
fn is_swap(alloc: Global, judgment: &Name, t: &Term) -> Result<bool, AllocError>
    ensures { IfOk result (λ b. b ≡ is_swap judgment.now t.now) }
{
    let Some((first, _)) = split_imp(t) else {
        return Ok(false);
    };
    let Some((j, n, p)) = judged_unary(judgment, first) else {
        return Ok(false);
    };
    let Some(r) = last_judged(judgment, t) else {
        return Ok(false);
    };
    let negated = judge_unary(alloc, j, n, p)?;
    let then = make_imp(alloc, &judge_unary(alloc, j, n, r)?, &apply(alloc, j, p)?)?;
    let form = make_rule(alloc, &negated, &then, &apply(alloc, j, r)?)?;
    Ok(are_two_letters(p, r) && same_term(t, &form))
}

/// `(J (N P) ==> J P) ==> J P`
fn is_classical(alloc: Global, judgment: &Name, t: &Term) -> Result<bool, AllocError>
    ensures { IfOk result (λ b. b ≡ is_classical judgment.now t.now) }
{
    let Some((first, _)) = split_imp(t) else {
        return Ok(false);
    };
    let Some((assumed, _)) = split_imp(first) else {
        return Ok(false);
    };
    let Some((j, n, p)) = judged_unary(judgment, assumed) else {
        return Ok(false);
    };
    let negated = judge_unary(alloc, j, n, p)?;
    let plain = apply(alloc, j, p)?;
    let then = make_imp(alloc, &negated, &plain)?;
    let form = make_imp(alloc, &then, &plain)?;
    Ok(is_unknown(p) && same_term(t, &form))
}

/// `J (N P) ==> J P ==> J R`
fn is_not_elim(alloc: Global, judgment: &Name, t: &Term) -> Result<bool, AllocError>
    ensures { IfOk result (λ b. b ≡ is_not_elim judgment.now t.now) }
{
    let Some((first, _)) = split_imp(t) else {
        return Ok(false);
    };
    let Some((j, n, p)) = judged_unary(judgment, first) else {
        return Ok(false);
    };
    let Some(r) = last_judged(judgment, t) else {
        return Ok(false);
    };
    let negated = judge_unary(alloc, j, n, p)?;
    let form = make_rule(alloc, &negated, &apply(alloc, j, p)?, &apply(alloc, j, r)?)?;
    Ok(are_two_letters(p, r) && same_term(t, &form))
}

/// `J (I P Q) ==> J P ==> J Q`
fn is_mp(alloc: Global, judgment: &Name, t: &Term) -> Result<bool, AllocError>
    ensures { IfOk result (λ b. b ≡ is_mp judgment.now t.now) }
{
    let Some((first, _)) = split_imp(t) else {
        return Ok(false);
    };
    let Some((j, c, p, q)) = judged_binary(judgment, first) else {
        return Ok(false);
    };
    let whole = judge_binary(alloc, j, c, p, q)?;
    let form = make_rule(alloc, &whole, &apply(alloc, j, p)?, &apply(alloc, j, q)?)?;
    Ok(are_two_letters(p, q) && same_term(t, &form))
}

/// `J (F P Q) ==> J Q ==> J P`
fn is_iff_d2(alloc: Global, judgment: &Name, t: &Term) -> Result<bool, AllocError>
    ensures { IfOk result (λ b. b ≡ is_iff_d2 judgment.now t.now) }
{
    let Some((first, _)) = split_imp(t) else {
        return Ok(false);
    };
    let Some((j, c, p, q)) = judged_binary(judgment, first) else {
        return Ok(false);
    };
    let whole = judge_binary(alloc, j, c, p, q)?;
    let form = make_rule(alloc, &whole, &apply(alloc, j, q)?, &apply(alloc, j, p)?)?;
    Ok(are_two_letters(p, q) && same_term(t, &form))
}

/// `J (E a b) ==> J (P a) ==> J (P b)`
fn is_subst(alloc: Global, judgment: &Name, t: &Term) -> Result<bool, AllocError>
    ensures { IfOk result (λ b. b ≡ is_subst judgment.now t.now) }
{
    let Some((first, _)) = split_imp(t) else {
        return Ok(false);
    };
    let Some((j, c, p, q)) = judged_binary(judgment, first) else {
        return Ok(false);
    };
    let Some(last) = last_judged(judgment, t) else {
        return Ok(false);
    };
    let Some(r) = function_part(last) else {
        return Ok(false);
    };
    let whole = judge_binary(alloc, j, c, p, q)?;
    let left = judge_unary(alloc, j, r, p)?;
    let form = make_rule(alloc, &whole, &left, &judge_unary(alloc, j, r, q)?)?;
    Ok(are_three_letters(p, q, r) && same_term(t, &form))
}

/// `J (E a b) ==> J (E b a)`
fn is_sym(alloc: Global, judgment: &Name, t: &Term) -> Result<bool, AllocError>
    ensures { IfOk result (λ b. b ≡ is_sym judgment.now t.now) }
{
    let Some((first, _)) = split_imp(t) else {
        return Ok(false);
    };
    let Some((j, c, p, q)) = judged_binary(judgment, first) else {
        return Ok(false);
    };
    let whole = judge_binary(alloc, j, c, p, q)?;
    let form = make_imp(alloc, &whole, &judge_binary(alloc, j, c, q, p)?)?;
    Ok(are_two_letters(p, q) && same_term(t, &form))
}

/// Whether a proposition has the form of a role, under the judgment of this name.
#[tactic(auto, unfolding(crate::specs::Roles::has_form))]
pub fn has_form(alloc: Global, judgment: &Name, role: Role, prop: &Term) -> Result<bool, AllocError>
    ensures { IfOk result (λ b. b ≡ has_form judgment.now role prop.now) }
{
    match role {
        Role::Close => Ok(is_close(prop)),
        Role::CloseAsm => Ok(is_close_asm(judgment, prop)),
        Role::Atomize => Ok(is_atomize(prop)),
        Role::Meta => Ok(is_meta(prop)),
        Role::Swap => is_swap(alloc, judgment, prop),
        Role::Classical => is_classical(alloc, judgment, prop),
        Role::NotElim => is_not_elim(alloc, judgment, prop),
        Role::Mp => is_mp(alloc, judgment, prop),
        Role::Subst => is_subst(alloc, judgment, prop),
        Role::Sym => is_sym(alloc, judgment, prop),
        Role::IffD1 => is_mp(alloc, judgment, prop),
        Role::IffD2 => is_iff_d2(alloc, judgment, prop),
    }
}

/// Whether one of the theorems states the proposition.
fn states(thms: &[Thm], prop: &Term) -> bool
    ensures { result ≡ states thms.now prop.now }
{
    let Some((first, rest)) = thms.split_first() else {
        return false;
    };
    same_term(first.prop(), prop) || states(rest, prop)
}

/// Puts the theorem last, if none there states the same.
fn put_theorem(alloc: Global, thms: &mut Thms, thm: &Thm) -> Result<(), AllocError>
    ensures { OnOk result (thms.new ≡ with_theorem thms.old thm.now) }
{
    if states(thms.as_slice(), thm.prop()) {
        return Ok(());
    }
    thms.push(thm.copy(alloc)?)
}

/// The logic in which the theorem has the role too.
#[tactic(auto, unfolding(crate::specs::Roles::with_role))]
pub fn with_role(alloc: Global, logic: &Logic, role: Role, thm: &Thm) -> Result<Logic, AllocError>
    ensures { IfOk result (λ l. l ≡ with_role logic.now role thm.now) }
{
    let mut next = logic.copy(alloc)?;
    match role {
        Role::Close => put_theorem(alloc, &mut next.close, thm)?,
        Role::CloseAsm => put_theorem(alloc, &mut next.close_asm, thm)?,
        Role::Atomize => put_theorem(alloc, &mut next.atomize, thm)?,
        Role::Meta => put_theorem(alloc, &mut next.meta, thm)?,
        Role::Swap => next.swap = Some(thm.copy(alloc)?),
        Role::Classical => next.classical = Some(thm.copy(alloc)?),
        Role::NotElim => next.not_elim = Some(thm.copy(alloc)?),
        Role::Mp => next.mp = Some(thm.copy(alloc)?),
        Role::Subst => next.subst = Some(thm.copy(alloc)?),
        Role::Sym => next.sym = Some(thm.copy(alloc)?),
        Role::IffD1 => next.iff_d1 = Some(thm.copy(alloc)?),
        Role::IffD2 => next.iff_d2 = Some(thm.copy(alloc)?),
    }
    Ok(next)
}

/// The role's word.
pub fn role_name(alloc: Global, role: Role) -> Result<Name, AllocError>
    ensures { IfOk result (λ name. name ≡ role_name role) }
{
    let word = match role {
        Role::Close => "close",
        Role::CloseAsm => "close_asm",
        Role::Atomize => "atomize",
        Role::Meta => "meta",
        Role::Swap => "swap",
        Role::Classical => "classical",
        Role::NotElim => "not_elim",
        Role::Mp => "mp",
        Role::Subst => "subst",
        Role::Sym => "sym",
        Role::IffD1 => "iff_d1",
        Role::IffD2 => "iff_d2",
    };
    Name::from_text(alloc, word)
}
