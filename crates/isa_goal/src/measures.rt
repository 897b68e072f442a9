//! Comparing and measuring states.
ghost use Rattle.std.specs.Prelude.{◌≡◌, ◌+◌, ◌^◌, ◌-◌, min};
ghost use Rattle.isa_goal.specs.Measures.{same_terms, same_state, total_size, measure};

use crate::state::State;
use isa_terms::{Term, same_term, size};

impl State {
    /// Whether the subgoals and the goals are equal. The names of binders don't count.
    pub fn same(&self, other: &State) -> bool
        ensures { result ≡ same_state self.now other.now }
    {
        same_terms(self.subgoals().as_slice(), other.subgoals().as_slice())
            && same_term(self.goal(), other.goal())
    }

    /// The sum of the subgoals' sizes, at most the greatest u64.
    pub fn measure(&self) -> u64
        ensures { result ≡ measure self.now }
    {
        total_from(0, self.subgoals().as_slice())
    }
}

/// Whether both have as many terms, each equal to the one at its place.
#[cycle(same)]
fn same_terms(left: &[Term], right: &[Term]) -> bool
    ensures { result ≡ same_terms left.now right.now }
{
    match (left.split_first(), right.split_first()) {
        (None, None) => true,
        (Some((t, ts)), Some((u, us))) => same_term(t, u) && same_terms(ts, us),
        _ => false,
    }
}

/// The sum of `sum` and the sizes, at most the greatest u64.
#[cycle(total)]
fn total_from(sum: u64, terms: &[Term]) -> u64
    ensures { result ≡ min (sum + total_size terms.now) (2 ^ 64 - 1) }
{
    match terms.split_first() {
        None => sum,
        Some((first, rest)) => total_from(sum.saturating_add(size(first)), rest),
    }
}
