ghost use Rattle.std.specs.Prelude.{◌≡◌, ◌↔◌, IsTrue};
ghost use Rattle.isa_terms.specs.Types.{tys_of};
ghost use Rattle.isa_terms.specs.TermLayers.{term_of};
ghost use Rattle.isa_terms.specs.Layers.{typ_of};
ghost use Rattle.std.specs.Ordering.{ordering_then, nat_cmp};
ghost use Rattle.isa_terms.specs.Order.{name_cmp, are_digits, is_counted, free_cmp, ty_kind, ty_cmp, tys_cmp, tys_count, head_of, arity, kind, head_cmp, args_cmp, tm_cmp};

use crate::measure::size;
use crate::name::Name;
use crate::term::{Term, TermNode};
use crate::typ::{Typ, TypNode};
use std::cmp::Ordering;

/// Names by their bytes.
fn compare_names(left: &Name, right: &Name) -> Ordering
    ensures { result ≡ name_cmp left.now right.now }
{
    left.as_bytes().cmp(right.as_bytes())
}

fn are_digits(bytes: &[u8]) -> bool
    ensures { result ≡ are_digits bytes.now }
{
    for byte in bytes {
        if !(b'0'..=b'9').contains(byte) {
            return false;
        }
    }
    true
}

/// Whether the name is `:` and digits.
fn is_counted(name: &Name) -> bool
    ensures { result ≡ is_counted name.now }
{
    match name.as_bytes().split_first() {
        None => false,
        Some((first, digits)) => *first == b':' && digits.len() != 0 && are_digits(digits),
    }
}

/// Free variables named `:` and digits before all others, and the shorter of them first.
fn compare_frees(left: &Name, right: &Name) -> Ordering
    ensures { result ≡ free_cmp left.now right.now }
{
    match (is_counted(left), is_counted(right)) {
        (true, true) => match left.len().cmp(&right.len()) {
            Ordering::Equal => compare_names(left, right),
            decided => decided,
        },
        (true, false) => Ordering::Less,
        (false, true) => Ordering::Greater,
        (false, false) => compare_names(left, right),
    }
}

/// The kinds of types in their order.
fn type_kind(node: &TypNode) -> u8
    ensures { result ≡ ty_kind (typ_of node.now) }
{
    match node {
        TypNode::Con(_, _) => 0,
        TypNode::Fixed(_) => 1,
        TypNode::Unknown(_, _) => 2,
    }
}

/// Types by kind, name, number, number of arguments, arguments.
#[cycle(types)]
fn compare_types(left: &Typ, right: &Typ) -> Ordering
    ensures { result ≡ ty_cmp left.now right.now }
{
    match (left.view(), right.view()) {
        (TypNode::Con(name, args), TypNode::Con(other, others)) => {
            match compare_names(name, other) {
                Ordering::Equal => compare_lists_of_types(args.as_slice(), others.as_slice()),
                decided => decided,
            }
        }
        (TypNode::Fixed(name), TypNode::Fixed(other)) => compare_names(name, other),
        (TypNode::Unknown(name, number), TypNode::Unknown(other, count)) => {
            compare_names(name, other).then(number.cmp(count))
        }
        (node, other) => type_kind(node).cmp(&type_kind(other)),
    }
}

/// The number of types, then the types.
#[cycle(types)]
#[tactic(auto, using(crate::proofs::Counts::count_of_list))]
fn compare_lists_of_types(left: &[Typ], right: &[Typ]) -> Ordering
    ensures { result ≡ ordering_then (nat_cmp (tys_count (tys_of left.now)) (tys_count (tys_of right.now))) (tys_cmp (tys_of left.now) (tys_of right.now)) }
{
    match left.len().cmp(&right.len()) {
        Ordering::Equal => compare_args_of_types(left, right),
        decided => decided,
    }
}

/// As many types, from left to right.
#[cycle(types)]
fn compare_args_of_types(left: &[Typ], right: &[Typ]) -> Ordering
    ensures { result ≡ tys_cmp (tys_of left.now) (tys_of right.now) }
{
    match (left.split_first(), right.split_first()) {
        (Some((first, rest)), Some((other, others))) => match compare_types(first, other) {
            Ordering::Equal => compare_args_of_types(rest, others),
            decided => decided,
        },
        _ => Ordering::Equal,
    }
}

/// The head of a term, which is no application.
pub fn head(t: &Term) -> &Term
    ensures { result.now ≡ head_of t.now }
{
    match t.view() {
        TermNode::App(fun, _) => head(fun),
        _ => t,
    }
}

/// The kinds of heads in their order.
fn kind(node: &TermNode) -> u8
    ensures { result ≡ kind (term_of node.now) }
{
    match node {
        TermNode::Const(_, _) => 0,
        TermNode::Free(_, _) => 1,
        TermNode::Unknown(_, _, _) => 2,
        TermNode::Bound(_) => 3,
        TermNode::Abs(_, _, _) => 4,
        TermNode::App(_, _) => 5,
    }
}

/// The numbers of arguments of two terms.
fn compare_arities(left: &Term, right: &Term) -> Ordering
    ensures { result ≡ nat_cmp (arity left.now) (arity right.now) }
{
    match (left.view(), right.view()) {
        (TermNode::App(fun, _), TermNode::App(other, _)) => compare_arities(fun, other),
        (TermNode::App(_, _), _) => Ordering::Greater,
        (_, TermNode::App(_, _)) => Ordering::Less,
        _ => Ordering::Equal,
    }
}

/// The heads of two terms by kind, then by what a head of that kind has.
#[cycle(terms)]
fn compare_heads(left: &Term, right: &Term) -> Ordering
    ensures { result ≡ head_cmp left.now right.now }
{
    match (left.view(), head(right).view()) {
        (TermNode::App(fun, _), _) => compare_heads(fun, right),
        (TermNode::Const(name, typ), TermNode::Const(other, kind)) => {
            compare_names(name, other).then(compare_types(typ, kind))
        }
        (TermNode::Free(name, typ), TermNode::Free(other, kind)) => {
            compare_frees(name, other).then(compare_types(typ, kind))
        }
        (TermNode::Unknown(name, number, typ), TermNode::Unknown(other, count, kind)) => {
            compare_names(name, other)
                .then(number.cmp(count))
                .then(compare_types(typ, kind))
        }
        (TermNode::Bound(number), TermNode::Bound(count)) => number.cmp(count),
        (TermNode::Abs(_, typ, body), TermNode::Abs(_, kind, other)) => {
            match compare_types(typ, kind) {
                Ordering::Equal => compare_terms(body, other),
                decided => decided,
            }
        }
        (node, other) => kind(node).cmp(&kind(other)),
    }
}

/// As many arguments, from left to right.
#[cycle(terms)]
fn compare_args(left: &Term, right: &Term) -> Ordering
    ensures { result ≡ args_cmp left.now right.now }
{
    match (left.view(), right.view()) {
        (TermNode::App(fun, arg), TermNode::App(other, argument)) => {
            match compare_args(fun, other) {
                Ordering::Equal => compare_terms(arg, argument),
                decided => decided,
            }
        }
        _ => Ordering::Equal,
    }
}

/// The term order: sizes, then heads, then the number of arguments, then the arguments from left to right.
#[cycle(terms)]
pub fn compare_terms(left: &Term, right: &Term) -> Ordering
    ensures { result ≡ tm_cmp left.now right.now }
{
    match size(left).cmp(&size(right)) {
        Ordering::Equal => compare_parts(left, right),
        decided => decided,
    }
}

/// Two terms of one size.
#[cycle(terms)]
fn compare_parts(left: &Term, right: &Term) -> Ordering
    ensures { result ≡ ordering_then (head_cmp left.now right.now) (ordering_then (nat_cmp (arity left.now) (arity right.now)) (args_cmp left.now right.now)) }
{
    match compare_heads(left, right).then(compare_arities(left, right)) {
        Ordering::Equal => compare_args(left, right),
        decided => decided,
    }
}
