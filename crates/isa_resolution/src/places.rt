//! The place of a term among others.
ghost use Rattle.std.specs.Prelude.{◌≡◌, option_map};
ghost use Rattle.isa_goal.specs.Goals.{around, head_split};

use isa_terms::Term;

/// The terms before the one at the place, itself, and those behind it, counted from 1.
pub(crate) fn around(terms: &[Term], place: usize) -> Option<(&[Term], &Term, &[Term])>
    ensures { option_map (λ p. (p.0.now, p.1.now, p.2.now)) result ≡ around place terms.now }
{
    if place == 0 || place > terms.len() {
        return None;
    }
    let (before, rest) = terms.split_at(place - 1);
    match rest.split_first() {
        None => None,
        Some((at, behind)) => Some((before, at, behind)),
    }
}
