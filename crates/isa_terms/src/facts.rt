ghost use Rattle.std.specs.Prelude.{◌≡◌, IfOk};
ghost use Rattle.isa_terms.specs.TermLayers.{term_of};
ghost use Rattle.isa_terms.specs.Norm.{loose};
ghost use Rattle.isa_terms.specs.Normal.{redex};
ghost use Rattle.isa_terms.specs.Order.{counted_size};
ghost use Rattle.isa_terms.specs.Facts.{loose_end, has_unknown, tm_open, has_free, tm_named, is_abs, is_normal, KnownTerm};

use crate::term::{Term, TermNode};
use std::alloc::AllocError;

/// What a node of a type keeps of it.
#[derive(Clone, Copy)]
pub struct TypFacts {
    /// How deeply it is nested.
    pub height: u64,
    /// Whether a type unknown is in it.
    pub is_open: bool,
    /// Whether a type variable is in it.
    pub is_named: bool,
}

/// What a node of a term keeps of it.
#[derive(Clone, Copy)]
pub struct TermFacts {
    pub size: u64,
    /// One more than the greatest number that is loose, and 0 where none is.
    pub loose_end: u64,
    pub has_unknown: bool,
    /// Whether a type unknown is in one of its types.
    pub is_open: bool,
    pub has_free: bool,
    /// Whether a type variable is in one of its types.
    pub is_named: bool,
    pub is_normal: bool,
}

fn size_of(node: &TermNode) -> u64
    ensures { result ≡ counted_size (term_of node.now) }
{
    match node {
        TermNode::Const(_, _)
        | TermNode::Free(_, _)
        | TermNode::Unknown(_, _, _)
        | TermNode::Bound(_) => 1,
        TermNode::Abs(_, _, body) => body.facts().size.saturating_add(1),
        TermNode::App(fun, arg) => fun.facts().size.saturating_add(arg.facts().size),
    }
}

fn loose_end_of(node: &TermNode) -> u64
    ensures { result ≡ loose_end (term_of node.now) }
{
    match node {
        TermNode::Const(_, _) | TermNode::Free(_, _) | TermNode::Unknown(_, _, _) => 0,
        TermNode::Bound(number) => u64::from(*number) + 1,
        TermNode::Abs(_, _, body) => body.facts().loose_end.saturating_sub(1),
        TermNode::App(fun, arg) => fun.facts().loose_end.max(arg.facts().loose_end),
    }
}

fn unknown_in(node: &TermNode) -> bool
    ensures { result ≡ has_unknown (term_of node.now) }
{
    match node {
        TermNode::Const(_, _) | TermNode::Free(_, _) | TermNode::Bound(_) => false,
        TermNode::Unknown(_, _, _) => true,
        TermNode::Abs(_, _, body) => body.facts().has_unknown,
        TermNode::App(fun, arg) => fun.facts().has_unknown || arg.facts().has_unknown,
    }
}

fn type_unknown_in(node: &TermNode) -> bool
    ensures { result ≡ tm_open (term_of node.now) }
{
    match node {
        TermNode::Const(_, typ) | TermNode::Free(_, typ) | TermNode::Unknown(_, _, typ) => {
            typ.facts().is_open
        }
        TermNode::Bound(_) => false,
        TermNode::Abs(_, typ, body) => typ.facts().is_open || body.facts().is_open,
        TermNode::App(fun, arg) => fun.facts().is_open || arg.facts().is_open,
    }
}

fn free_in(node: &TermNode) -> bool
    ensures { result ≡ has_free (term_of node.now) }
{
    match node {
        TermNode::Const(_, _) | TermNode::Unknown(_, _, _) | TermNode::Bound(_) => false,
        TermNode::Free(_, _) => true,
        TermNode::Abs(_, _, body) => body.facts().has_free,
        TermNode::App(fun, arg) => fun.facts().has_free || arg.facts().has_free,
    }
}

fn type_variable_in(node: &TermNode) -> bool
    ensures { result ≡ tm_named (term_of node.now) }
{
    match node {
        TermNode::Const(_, typ) | TermNode::Free(_, typ) | TermNode::Unknown(_, _, typ) => {
            typ.facts().is_named
        }
        TermNode::Bound(_) => false,
        TermNode::Abs(_, typ, body) => typ.facts().is_named || body.facts().is_named,
        TermNode::App(fun, arg) => fun.facts().is_named || arg.facts().is_named,
    }
}

/// Whether the variable `depth` of as many binders is in the term.
#[tactic(auto, using(crate::proofs::Shared::loose_none))]
pub fn is_loose(depth: u32, t: &Term) -> Result<bool, AllocError>
    ensures { IfOk result (λ r. r ≡ loose depth t.now) }
{
    if t.facts().loose_end <= u64::from(depth) {
        return Ok(false);
    }
    match t.view() {
        TermNode::Const(_, _) | TermNode::Free(_, _) | TermNode::Unknown(_, _, _) => Ok(false),
        TermNode::Bound(number) => Ok(*number == depth),
        TermNode::Abs(_, _, body) => is_loose(depth.checked_add(1).ok_or(AllocError)?, body),
        TermNode::App(fun, arg) => Ok(is_loose(depth, fun)? || is_loose(depth, arg)?),
    }
}

/// Whether it is `f x` for the variable x of the innermost binder, x not in f.
fn is_redex(body: &Term) -> Result<bool, AllocError>
    ensures { IfOk result (λ r. r ≡ redex body.now) }
{
    let TermNode::App(fun, arg) = body.view() else {
        return Ok(false);
    };
    match arg.view() {
        TermNode::Bound(0) => Ok(!is_loose(0, fun)?),
        _ => Ok(false),
    }
}

pub(crate) fn is_abs(t: &Term) -> bool
    ensures { result ≡ is_abs t.now }
{
    match t.view() {
        TermNode::Abs(_, _, _) => true,
        _ => false,
    }
}

fn is_normal_node(node: &TermNode) -> Result<bool, AllocError>
    ensures { IfOk result (λ r. r ≡ is_normal (term_of node.now)) }
{
    match node {
        TermNode::Abs(_, _, body) => Ok(body.facts().is_normal && !is_redex(body)?),
        TermNode::App(fun, arg) => {
            Ok(!is_abs(fun) && fun.facts().is_normal && arg.facts().is_normal)
        }
        _ => Ok(true),
    }
}

pub(crate) fn term_facts(node: &TermNode) -> Result<TermFacts, AllocError>
    ensures { IfOk result (λ f. KnownTerm (term_of node.now) f) }
{
    Ok(TermFacts {
        size: size_of(node),
        loose_end: loose_end_of(node),
        has_unknown: unknown_in(node),
        is_open: type_unknown_in(node),
        has_free: free_in(node),
        is_named: type_variable_in(node),
        is_normal: is_normal_node(node)?,
    })
}
