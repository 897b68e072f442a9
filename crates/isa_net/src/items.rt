//! What is still to be read.

ghost use Rattle.std.specs.Prelude.{◌≡◌};
ghost use Rattle.isa_net.specs.Words.{passes};
ghost use Rattle.isa_net.specs.Inside.Lists.{items_in, items_of, arg_at};

use crate::mode::Mode;
use isa_terms::{Term, TermNode};

/// What is still to be read, the first of it first.
#[derive(Drop)]
pub enum Items<'a> {
    End,
    /// A term, and then the rest.
    Whole(&'a Term, &'a Items<'a>),
    /// So many last arguments of a term, then so many subwords, and then the rest.
    More(&'a Term, usize, usize, &'a Items<'a>),
}

/// The first of what is to be read, a subterm or else a subword, and what is left, as in `More`.
#[derive(Drop)]
pub struct Front<'a> {
    pub item: Option<&'a Term>,
    pub spine: &'a Term,
    pub args: usize,
    pub overs: usize,
    pub rest: &'a Items<'a>,
}

/// The argument by its number from the last one on.
pub fn arg_at(number: usize, t: &Term) -> &Term
    ensures { result.now ≡ arg_at number t.now }
{
    match t.view() {
        TermNode::App(fun, arg) => {
            if number == 0 {
                arg
            } else {
                arg_at(number - 1, fun)
            }
        }
        _ => t,
    }
}

/// What is to be read first.
pub fn front_of<'a>(items: &Items<'a>) -> Option<Front<'a>>
    ensures { items_of result ≡ items_in items.now }
{
    match items {
        Items::End => None,
        Items::Whole(t, rest) => Some(Front {
            item: Some(t),
            spine: t,
            args: 0,
            overs: 0,
            rest,
        }),
        Items::More(spine, args, overs, rest) => {
            if *args > 0 {
                Some(Front {
                    item: Some(arg_at(*args - 1, spine)),
                    spine,
                    args: *args - 1,
                    overs: *overs,
                    rest,
                })
            } else if *overs > 0 {
                Some(Front {
                    item: None,
                    spine,
                    args: 0,
                    overs: *overs - 1,
                    rest,
                })
            } else {
                front_of(rest)
            }
        }
    }
}

/// Whether the term passes over any subword.
pub fn passes(mode: Mode, t: &Term) -> bool
    ensures { result ≡ passes mode t.now }
{
    match t.view() {
        TermNode::Const(_, _) | TermNode::Free(_, _) => false,
        TermNode::Unknown(_, _, _) => match mode {
            Mode::Unifiable => true,
            Mode::Matching => false,
        },
        TermNode::Bound(_) | TermNode::Abs(_, _, _) => true,
        TermNode::App(fun, _) => passes(mode, fun),
    }
}
