//! The part of a term at a place, and another in its stead.
ghost use Rattle.std.specs.Prelude.{◌≡◌, IfOk};
ghost use Rattle.std.specs.Option.{option_copied};
ghost use Rattle.isa_terms.specs.Places.{subterm_at, with_subterm_at};

use crate::term::{Term, TermNode};
use crate::typing::Turn;
use std::alloc::{AllocError, Global};

/// The part of the term at the place to which the turns lead; `None` where the term has no such place.
pub fn subterm_at<'t>(turns: &[Turn], t: &'t Term) -> Option<&'t Term>
    ensures { option_copied result ≡ subterm_at turns.now t.now }
{
    let Some((turn, rest)) = turns.split_first() else {
        return Some(t);
    };
    match (*turn, t.view()) {
        (Turn::Fun, TermNode::App(fun, _)) => subterm_at(rest, fun),
        (Turn::Arg, TermNode::App(_, arg)) => subterm_at(rest, arg),
        (Turn::Body, TermNode::Abs(_, _, body)) => subterm_at(rest, body),
        _ => None,
    }
}

/// The term with another part at the place to which the turns lead; `None` where it has no such place. Loose numbers of the
/// part stay as they are.
pub fn with_subterm_at(
    alloc: Global,
    turns: &[Turn],
    part: &Term,
    t: &Term,
) -> Result<Option<Term>, AllocError>
    ensures { IfOk result (λ r. r ≡ with_subterm_at turns.now part.now t.now) }
{
    let Some((turn, rest)) = turns.split_first() else {
        return Ok(Some(part.copy()?));
    };
    match (*turn, t.view()) {
        (Turn::Fun, TermNode::App(fun, arg)) => {
            let Some(fun) = with_subterm_at(alloc, rest, part, fun)? else {
                return Ok(None);
            };
            Ok(Some(Term::new(alloc, TermNode::App(fun, arg.copy()?))?))
        }
        (Turn::Arg, TermNode::App(fun, arg)) => {
            let Some(arg) = with_subterm_at(alloc, rest, part, arg)? else {
                return Ok(None);
            };
            Ok(Some(Term::new(alloc, TermNode::App(fun.copy()?, arg))?))
        }
        (Turn::Body, TermNode::Abs(name, typ, body)) => {
            let Some(body) = with_subterm_at(alloc, rest, part, body)? else {
                return Ok(None);
            };
            Ok(Some(Term::new(alloc, TermNode::Abs(name.copy()?, typ.copy()?, body))?))
        }
        _ => Ok(None),
    }
}
