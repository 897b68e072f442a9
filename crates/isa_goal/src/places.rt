//! Places in lists of terms.
ghost use Rattle.std.specs.Prelude.{◌≡◌, [], ◌∷◌, ◌++◌, option_map, IfOk};
ghost use Rattle.isa_goal.specs.Goals.{around, head_split};

use isa_terms::{Term, Terms, copied};
use std::alloc::{AllocError, Global};

/// The terms, and another behind them.
pub(crate) fn with_last(alloc: Global, terms: &[Term], last: &Term) -> Result<Terms, AllocError>
    ensures { IfOk result (λ r. r ≡ terms.now ++ last.now ∷ []) }
{
    let mut all = copied(alloc, terms)?;
    all.push(last.copy()?)?;
    Ok(all)
}

/// The terms before the one at the place, itself, and those behind it, counted from 1.
pub(crate) fn around(terms: &[Term], place: usize) -> Option<(&[Term], &Term, &[Term])>
    ensures { option_map (λ p. (p.0.now, p.1.now, p.2.now)) result ≡ around place terms.now }
{
    if place == 0 || place > terms.len() {
        return None;
    }
    let (before, rest) = terms.split_at(place - 1);
    match rest.split_first() {
        None => None,
        Some((at, behind)) => Some((before, at, behind)),
    }
}
