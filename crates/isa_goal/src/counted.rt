//! Free variables that are named `:` and digits.
ghost use Rattle.std.specs.Prelude.{◌≡◌};
ghost use Rattle.isa_terms.specs.Order.{are_digits, is_counted};
ghost use Rattle.isa_goal.specs.Counted.{has_counted, entries_have_counted, rules_have_counted};

use isa_kernel::{Thm, Thms};
use isa_terms::{Inst, Name, Term, TermEntry, TermNode};

fn are_digits(bytes: &[u8]) -> bool
    ensures { result ≡ are_digits bytes.now }
{
    for byte in bytes {
        if !(b'0'..=b'9').contains(byte) {
            return false;
        }
    }
    true
}

/// Whether the name is `:` and digits.
fn is_counted(name: &Name) -> bool
    ensures { result ≡ is_counted name.now }
{
    match name.as_bytes().split_first() {
        None => false,
        Some((first, digits)) => *first == b':' && digits.len() != 0 && are_digits(digits),
    }
}

/// Whether a free variable of the term is named `:` and digits.
#[tactic(auto, using(crate::proofs::Uncounted::none_counted))]
pub fn has_counted(t: &Term) -> bool
    ensures { result ≡ has_counted t.now }
{
    if !t.has_free_variables() {
        return false;
    }
    match t.view() {
        TermNode::Free(name, _) => is_counted(name),
        TermNode::Abs(_, _, body) => has_counted(body),
        TermNode::App(fun, arg) => has_counted(fun) || has_counted(arg),
        TermNode::Const(_, _) | TermNode::Unknown(_, _, _) | TermNode::Bound(_) => false,
    }
}

fn entries_have_counted(entries: &[TermEntry]) -> bool
    ensures { result ≡ entries_have_counted entries.now }
{
    match entries.split_first() {
        None => false,
        Some((first, rest)) => has_counted(&first.term) || entries_have_counted(rest),
    }
}

/// Whether one of the terms that the instance gives has such a free variable.
pub fn inst_has_counted(inst: &Inst) -> bool
    ensures { result ≡ entries_have_counted inst.now.terms }
{
    entries_have_counted(inst.terms().as_slice())
}

fn rules_have_counted(rules: &[Thm]) -> bool
    ensures { result ≡ rules_have_counted rules.now }
{
    match rules.split_first() {
        None => false,
        Some((first, rest)) => has_counted(first.prop()) || rules_have_counted(rest),
    }
}

/// Whether the proposition of one of the rules has one.
pub fn have_counted(rules: &Thms) -> bool
    ensures { result ≡ rules_have_counted rules.now }
{
    rules_have_counted(rules.as_slice())
}
