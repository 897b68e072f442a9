//! Equality of terms, the names of binders included.
ghost use Rattle.std.specs.Prelude.{◌≡◌, ◌↔◌, IsTrue};

use isa_terms::{Term, TermNode, same_typ};

/// Whether the terms are equal, the names of binders included.
pub(crate) fn identical(left: &Term, right: &Term) -> bool
    ensures { IsTrue result ↔ (left.now ≡ right.now) }
{
    match (left.view(), right.view()) {
        (TermNode::Const(name, typ), TermNode::Const(other, kind))
        | (TermNode::Free(name, typ), TermNode::Free(other, kind)) => {
            name.same(other) && same_typ(typ, kind)
        }
        (TermNode::Unknown(name, number, typ), TermNode::Unknown(other, count, kind)) => {
            name.same(other) && *number == *count && same_typ(typ, kind)
        }
        (TermNode::Bound(number), TermNode::Bound(count)) => *number == *count,
        (TermNode::Abs(name, typ, body), TermNode::Abs(other, kind, second)) => {
            name.same(other) && same_typ(typ, kind) && identical(body, second)
        }
        (TermNode::App(fun, arg), TermNode::App(other, argument)) => {
            identical(fun, other) && identical(arg, argument)
        }
        _ => false,
    }
}
