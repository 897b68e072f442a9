//! The form of a subgoal: `!!`s, then `==>`s, then a conclusion that is neither.
ghost use Rattle.std.specs.Prelude.{◌≡◌, ◌++◌, [], map, IfOk};
ghost use Rattle.isa_terms.specs.Terms.{Abs, App, Bound};
ghost use Rattle.isa_terms.specs.Replace.{raise};
ghost use Rattle.isa_subgoal.specs.Shape.{is_quantified, is_in_form, over_name, over_names, spelled, gathered, moved, shaped};

use crate::premises::conclusion;
use isa_kernel::{make_all, make_implies, split_imp, split_quantifier};
use isa_terms::{Name, Term, TermNode, Terms, Typ, copied, norm, raised};
use std::alloc::{AllocError, Global};

/// Whether it is `!!` over a predicate.
fn is_quantified(t: &Term) -> bool
    ensures { result ≡ is_quantified t.now }
{
    match split_quantifier(t) {
        None => false,
        Some(_) => true,
    }
}

/// Whether a normal proposition has the form.
#[tactic(auto, using(crate::proofs::InForm::form_without))]
pub(crate) fn is_in_form(t: &Term) -> bool
    ensures { result ≡ is_in_form t.now }
{
    if !is_quantified(t) {
        return !is_quantified(conclusion(t));
    }
    match t.view() {
        TermNode::App(_, arg) => match arg.view() {
            TermNode::Abs(_, _, body) => is_in_form(body),
            _ => true,
        },
        _ => true,
    }
}

/// The predicate at the variable of the innermost binder, under which it comes to stand.
fn at_last(alloc: Global, predicate: &Term) -> Result<Term, AllocError>
    ensures { IfOk result (λ t. t ≡ App (raise 1 0 predicate.now) (Bound 0)) }
{
    let fun = raised(alloc, 1, 0, predicate)?;
    let arg = Term::new(alloc, TermNode::Bound(0))?;
    Term::new(alloc, TermNode::App(fun, arg))
}

/// `!!x. P x`.
fn over_name(alloc: Global, typ: &Typ, predicate: &Term) -> Result<Term, AllocError>
    ensures { IfOk result (λ t. t ≡ over_name typ.now predicate.now) }
{
    let name = Name::from_text(alloc, "x")?;
    let body = at_last(alloc, predicate)?;
    make_all(alloc, &name, typ, body)
}

/// The same, and `!!x. !!x. Q x` where `P x` is `!!` over Q.
fn over_names(alloc: Global, typ: &Typ, predicate: &Term) -> Result<Term, AllocError>
    ensures { IfOk result (λ t. t ≡ over_names typ.now predicate.now) }
{
    let name = Name::from_text(alloc, "x")?;
    let inner = at_last(alloc, predicate)?;
    let body = match split_quantifier(&inner) {
        None => inner.copy()?,
        Some((domain, next)) => over_name(alloc, domain, next)?,
    };
    make_all(alloc, &name, typ, body)
}

/// The function applied to the abstraction.
fn applied_to_abs(
    alloc: Global,
    fun: &Term,
    name: &Name,
    typ: &Typ,
    body: Term,
) -> Result<Term, AllocError>
    ensures { IfOk result (λ t. t ≡ App fun.now (Abs name.now typ.now body)) }
{
    let arg = Term::new(alloc, TermNode::Abs(name.copy()?, typ.copy()?, body))?;
    Term::new(alloc, TermNode::App(fun.copy()?, arg))
}

/// Behind its `!!`s and `==>`s, a `!!` over a predicate that is no abstraction gets a parameter that is named x.
pub(crate) fn spelled(alloc: Global, t: &Term) -> Result<Term, AllocError>
    ensures { IfOk result (λ r. r ≡ spelled t.now) }
{
    match t.view() {
        TermNode::App(fun, arg) => match arg.view() {
            TermNode::Abs(name, typ, body) => match split_quantifier(t) {
                None => t.copy(),
                Some(_) => {
                    let inner = spelled(alloc, body)?;
                    applied_to_abs(alloc, fun, name, typ, inner)
                }
            },
            _ => match split_imp(t) {
                None => match split_quantifier(t) {
                    None => t.copy(),
                    Some((typ, predicate)) => over_names(alloc, typ, predicate),
                },
                Some(_) => {
                    let inner = spelled(alloc, arg)?;
                    Term::new(alloc, TermNode::App(fun.copy()?, inner))
                }
            },
        },
        _ => t.copy(),
    }
}

/// The terms under one binder more, behind those that are done.
fn raise_all(alloc: Global, terms: &[Term], mut done: Terms) -> Result<Terms, AllocError>
    ensures { IfOk result (λ r. r ≡ done ++ map (raise 1 0) terms.now) }
{
    match terms.split_first() {
        None => Ok(done),
        Some((first, rest)) => {
            done.push(raised(alloc, 1, 0, first)?)?;
            raise_all(alloc, rest, done)
        }
    }
}

/// The `!!`s in their order, then the premises and those of the term, then the conclusion.
pub(crate) fn gathered(alloc: Global, premises: &[Term], t: &Term) -> Result<Term, AllocError>
    ensures { IfOk result (λ r. r ≡ gathered premises.now t.now) }
{
    match t.view() {
        TermNode::App(fun, arg) => match arg.view() {
            TermNode::Abs(name, typ, body) => match split_quantifier(t) {
                None => make_implies(alloc, premises, t),
                Some((_, _)) => {
                    let under = raise_all(alloc, premises, Terms::new(alloc))?;
                    let inner = gathered(alloc, under.as_slice(), body)?;
                    applied_to_abs(alloc, fun, name, typ, inner)
                }
            },
            _ => match split_imp(t) {
                None => make_implies(alloc, premises, t),
                Some((premise, _)) => {
                    let mut more = copied(alloc, premises)?;
                    more.push(premise.copy()?)?;
                    gathered(alloc, more.as_slice(), arg)
                }
            },
        },
        _ => make_implies(alloc, premises, t),
    }
}

/// The subgoal in the form; one that has it stays as it is.
pub(crate) fn shaped(alloc: Global, t: &Term) -> Result<Term, AllocError>
    ensures { IfOk result (λ r. r ≡ shaped t.now) }
{
    if is_in_form(t) {
        return t.copy();
    }
    let plain = spelled(alloc, t)?;
    let form = gathered(alloc, &[], &plain)?;
    norm(alloc, &form)
}
