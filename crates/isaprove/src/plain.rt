//! Plain propositions: those that are proved and printed today.
ghost use Rattle.std.specs.Prelude.{◌≡◌, IfOk};
ghost use Rattle.isa_print.specs.Text.{is_constant};
ghost use Rattle.isaprove.specs.Plain.{is_notated, is_plain_term, is_plain_prop, is_plain, are_plain};

use isa_goal::is_first_order;
use isa_kernel::{Thm, Thms};
use isa_terms::{Name, Term, TermNode};
use isa_theory::Context;
use std::alloc::{AllocError, Global};

/// Whether one of the constants with a notation has the name.
fn is_notated(notated: &[Name], name: &Name) -> bool
    ensures { result ≡ is_notated notated.now name.now }
{
    match notated.split_first() {
        None => false,
        Some((first, rest)) => first.same(name) || is_notated(rest, name),
    }
}

/// Whether the term has neither an abstraction nor a constant with a notation.
fn is_plain_term(notated: &[Name], t: &Term) -> bool
    ensures { result ≡ is_plain_term notated.now t.now }
{
    match t.view() {
        TermNode::Const(name, _) => !is_notated(notated, name),
        TermNode::Free(_, _) | TermNode::Unknown(_, _, _) => true,
        TermNode::Bound(_) | TermNode::Abs(_, _, _) => false,
        TermNode::App(fun, arg) => is_plain_term(notated, fun) && is_plain_term(notated, arg),
    }
}

fn is_constant(name: &[u8], t: &Term) -> bool
    ensures { result ≡ is_constant name.now t.now }
{
    match t.view() {
        TermNode::Const(constant, _) => constant.as_bytes() == name,
        _ => false,
    }
}

/// Whether it is built by `==>` from the judgment of plain terms.
fn is_plain_prop(judgment: &Name, notated: &[Name], t: &Term) -> bool
    ensures { result ≡ is_plain_prop judgment.now notated.now t.now }
{
    let TermNode::App(fun, right) = t.view() else {
        return false;
    };
    match fun.view() {
        TermNode::App(constant, left) => {
            is_constant(b"Pure.imp", constant)
                && is_plain_prop(judgment, notated, left)
                && is_plain_prop(judgment, notated, right)
        }
        TermNode::Const(name, _) => name.same(judgment) && is_plain_term(notated, right),
        _ => false,
    }
}

/// Whether the proposition is plain, and holds neither an unknown of a function type nor a type unknown.
#[tactic(auto, unfolding(crate::specs::Plain::is_plain))]
pub fn is_plain(alloc: Global, context: &Context, t: &Term) -> Result<bool, AllocError>
    ensures { IfOk result (λ b. b ≡ is_plain context.now t.now) }
{
    if !is_first_order(t) {
        return Ok(false);
    }
    let judgment = context.judgment_name(alloc)?;
    let notated = context.syntax().signature().notated();
    Ok(is_plain_prop(&judgment, notated, t))
}

/// Whether all of the rules are plain.
pub fn are_plain(alloc: Global, context: &Context, rules: &[Thm]) -> Result<bool, AllocError>
    ensures { IfOk result (λ b. b ≡ are_plain context.now rules.now) }
{
    let Some((first, rest)) = rules.split_first() else {
        return Ok(true);
    };
    if !is_plain(alloc, context, first.prop())? {
        return Ok(false);
    }
    are_plain(alloc, context, rest)
}
