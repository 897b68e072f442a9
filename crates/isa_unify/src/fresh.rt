//! Numbers of new unknowns.

ghost use Rattle.std.specs.Prelude.{◌≡◌, ◌≤◌};
ghost use Rattle.isa_unify.specs.Calls.{past, past_all};

use isa_terms::{Term, TermNode, Terms};
use std::marker::Model;

/// The number of the next new unknown.
#[derive(Drop)]
pub struct Fresh {
    next: u32,
}

impl Model for Fresh {
    ghost use Rattle.std.specs.Prelude.{ℕ};

    ghost Value = { ℕ };

    ghost view = { λ f. f.next };
}

/// The least number past those of the unknowns of the term.
#[tactic(auto, using(crate::proofs::Unvisited::past_none))]
fn past(t: &Term) -> u32
    requires { past t.now ≤ 4000000000 }
    ensures { result ≡ past t.now }
{
    if !t.has_unknowns() {
        return 0;
    }
    match t.view() {
        TermNode::Unknown(_, number, _) => *number + 1,
        TermNode::Const(_, _) | TermNode::Free(_, _) | TermNode::Bound(_) => 0,
        TermNode::Abs(_, _, body) => past(body),
        TermNode::App(fun, arg) => past(fun).max(past(arg)),
    }
}

impl Fresh {
    /// The least number past those of all unknowns of the terms.
    pub fn after(terms: &Terms) -> Fresh
        requires { past_all terms.now ≤ 4000000000 }
        ensures { result ≡ past_all terms.now }
    {
        let mut next = 0;
        for t in terms.as_slice() {
            next = next.max(past(t));
        }
        Fresh { next }
    }

    /// The number of the next new unknown.
    pub fn number(&self) -> u32
        ensures { result ≡ self.now }
    {
        self.next
    }

    /// Goes on from that number.
    pub fn set(&mut self, next: u32)
        ensures { self.new ≡ next }
    {
        self.next = next;
    }
}
