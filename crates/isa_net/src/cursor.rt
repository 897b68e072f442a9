//! Cursors over candidates.

ghost use Rattle.std.specs.Prelude.{◌≡◌, drop, option_copied};
ghost use Rattle.isa_net.specs.Nets.{RankList, AreThere, next_of};

use crate::net::Net;
use crate::rank::Rank;
use std::marker::Model;

/// The ranks of candidates that are still to come, which contracts see as their list.
#[derive(Drop)]
pub struct Cursor {
    ranks: Vec<Rank>,
    next: usize,
}

impl Model for Cursor {
    ghost Value = { RankList };

    ghost view = { λ c. drop c.next c.ranks.items };
}

impl Cursor {
    /// The ranks, from the first on.
    pub(crate) fn new(ranks: Vec<Rank>) -> Cursor
        ensures { result ≡ ranks.items }
    {
        Cursor { ranks, next: 0 }
    }

    /// The value of the next candidate; none at their end.
    pub fn next<'n, V: Drop>(&mut self, net: &'n Net<V>) -> Option<&'n V>
        requires { AreThere net.now self.old }
        ensures next { (option_copied result, self.new) ≡ next_of self.old net.now }
        ensures left { AreThere net.now self.new }
    {
        let rank = *self.ranks.get(self.next)?;
        self.next += 1;
        net.get(rank)
    }
}
