//! Ranks.

ghost use Rattle.std.proofs.Common.{rules};
ghost use Rattle.std.specs.Cmp.{partial_order_from_own_ties};
ghost use Rattle.std.specs.Cmp.Rules.{comparing};
ghost use Rattle.std.specs.Ordering.{nat_cmp, on, flip_args, then_cmp, as_partial_cmp};

use std::cmp::Ordering;

/// The place of a value in the order of a net: lower weight first, then fewer subgoals, then the later one.
#[derive(Clone, Copy, PartialEq, Eq)]
pub struct Rank {
    /// The weight of the rule.
    pub weight: u32,
    /// How many new subgoals or conditions the rule makes.
    pub subgoals: u32,
    /// A number that grows with each declaration.
    pub later: u64,
}

impl Ord for Rank {
    ghost cmp = { then_cmp (on (λ r. r.weight) nat_cmp) (then_cmp (on (λ r. r.subgoals) nat_cmp) (flip_args (on (λ r. r.later) nat_cmp))) };

    ghost total = { Prim.search (comparing, rules) depth 9 };

    ghost matches_partial_cmp = { Prim.search (comparing, rules) depth 9 };

    ghost matches_eq = { Prim.search (comparing, rules) depth 9 };

    fn cmp(&self, other: &Rank) -> Ordering {
        self.weight.cmp(&other.weight).then(
            self.subgoals
                .cmp(&other.subgoals)
                .then(other.later.cmp(&self.later)),
        )
    }
}

impl PartialOrd for Rank {
    ghost partial_cmp = { as_partial_cmp (then_cmp (on (λ r. r.weight) nat_cmp) (then_cmp (on (λ r. r.subgoals) nat_cmp) (flip_args (on (λ r. r.later) nat_cmp)))) };

    ghost laws = { partial_order_from_own_ties (Prim.search (comparing, rules) depth 9) (Prim.search (comparing, rules) depth 9) };

    fn partial_cmp(&self, other: &Rank) -> Option<Ordering> {
        Some(self.cmp(other))
    }
}
