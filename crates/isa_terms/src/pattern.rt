ghost use Rattle.std.specs.Prelude.{◌≡◌, false};
ghost use Rattle.isa_terms.specs.Order.{head_of};
ghost use Rattle.isa_terms.specs.Pattern.{is_unknown, is_bound, is_argument, is_new_bound, distinct_args, is_pattern};

use crate::order::head;
use crate::term::{Term, TermNode};

fn is_unknown(t: &Term) -> bool
    ensures { result ≡ is_unknown t.now }
{
    match t.view() {
        TermNode::Unknown(_, _, _) => true,
        _ => false,
    }
}

fn is_bound(number: u32, t: &Term) -> bool
    ensures { result ≡ is_bound number t.now }
{
    match t.view() {
        TermNode::Bound(other) => number == *other,
        _ => false,
    }
}

/// Whether the bound variable is an argument of the term.
fn is_argument(number: u32, t: &Term) -> bool
    ensures { result ≡ is_argument number t.now }
{
    match t.view() {
        TermNode::App(fun, arg) => is_bound(number, arg) || is_argument(number, fun),
        _ => false,
    }
}

/// Whether the argument is a bound variable that is no argument of the function.
fn is_new_bound(fun: &Term, arg: &Term) -> bool
    ensures { result ≡ is_new_bound fun.now arg.now }
{
    match arg.view() {
        TermNode::Bound(number) => !is_argument(*number, fun),
        _ => false,
    }
}

/// Whether the arguments of the term are distinct bound variables.
pub fn distinct_args(t: &Term) -> bool
    ensures { result ≡ distinct_args t.now }
{
    match t.view() {
        TermNode::App(fun, arg) => is_new_bound(fun, arg) && distinct_args(fun),
        _ => true,
    }
}

/// The same for a term whose head is no unknown.
#[cycle(pattern)]
fn rigid_args(t: &Term) -> bool
    requires { is_unknown (head_of t.now) ≡ false }
    ensures { result ≡ is_pattern t.now }
{
    match t.view() {
        TermNode::App(fun, arg) => rigid_args(fun) && is_pattern(arg),
        TermNode::Abs(_, _, body) => is_pattern(body),
        _ => true,
    }
}

/// Whether each unknown of a term in normal form is applied to distinct bound variables only.
#[cycle(pattern)]
#[tactic(auto, using(crate::proofs::Shared::pattern_stays))]
pub fn is_pattern(t: &Term) -> bool
    ensures { result ≡ is_pattern t.now }
{
    if !t.facts().has_unknown {
        return true;
    }
    match t.view() {
        TermNode::App(fun, arg) => {
            if is_unknown(head(fun)) {
                distinct_args(t)
            } else {
                rigid_args(fun) && is_pattern(arg)
            }
        }
        TermNode::Abs(_, _, body) => is_pattern(body),
        _ => true,
    }
}
