//! Terms that differ at a place where both have names at their heads.
ghost use Rattle.std.specs.Prelude.{◌≡◌};
ghost use Rattle.isa_clash.specs.Differing.{is_named, is_firm, differ, differ_at};

use isa_terms::{Term, TermNode};

/// Whether a constant or a free variable stands at the head.
fn is_named(t: &Term) -> bool
    ensures { result ≡ is_named t.now }
{
    match t.view() {
        TermNode::Const(_, _) | TermNode::Free(_, _) => true,
        TermNode::Unknown(_, _, _) | TermNode::Bound(_) | TermNode::Abs(_, _, _) => false,
        TermNode::App(fun, _) => is_named(fun),
    }
}

/// Whether no instance changes the head: it is no abstraction, and no unknown, unless unknowns count as constants.
fn is_firm(fixed: bool, t: &Term) -> bool
    ensures { result ≡ is_firm fixed t.now }
{
    match t.view() {
        TermNode::Const(_, _) | TermNode::Free(_, _) | TermNode::Bound(_) => true,
        TermNode::Unknown(_, _, _) => fixed,
        TermNode::Abs(_, _, _) => false,
        TermNode::App(fun, _) => is_firm(fixed, fun),
    }
}

/// Whether the terms differ at a place that no instance changes: two heads of other names, or of other numbers of
/// arguments. Types and abstractions are not looked at. Where `fixed`, the unknowns of the right term count as constants.
///
/// It takes no memory, and where the heads differ it looks at nothing else.
#[cycle(differ)]
pub fn differ(fixed: bool, left: &Term, right: &Term) -> bool
    ensures { result ≡ differ fixed left.now right.now }
{
    is_named(left) && is_firm(fixed, right) && differ_at(fixed, left, right)
}

/// The same where both heads are known to stay.
#[cycle(differ)]
fn differ_at(fixed: bool, left: &Term, right: &Term) -> bool
    ensures { result ≡ differ_at fixed left.now right.now }
{
    match (left.view(), right.view()) {
        (TermNode::Const(name, _), TermNode::Const(other, _))
        | (TermNode::Free(name, _), TermNode::Free(other, _)) => !name.same(other),
        (TermNode::App(fun, arg), TermNode::App(other, argument)) => {
            differ_at(fixed, fun, other) || differ(fixed, arg, argument)
        }
        _ => true,
    }
}
