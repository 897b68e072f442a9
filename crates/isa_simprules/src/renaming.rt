//! Whether two terms are equal up to a renaming of unknowns.
ghost use Rattle.std.specs.Prelude.{◌≡◌, ◌∷◌, [], IfOk, List, option_map};
ghost use Rattle.isa_terms.specs.Terms.{Tm};
ghost use Rattle.isa_simprules.specs.Renamings.{may_pair, paired, renaming, is_renamed};

use isa_terms::{Term, TermNode, same_term, same_typ};
use std::alloc::{AllocError, Global};

/// Whether the first may be renamed to the second: each pair has both as its sides, or neither.
fn may_pair(pairs: &[(Term, Term)], from: &Term, to: &Term) -> bool
    ensures { result ≡ may_pair pairs.now from.now to.now }
{
    for pair in pairs {
        if same_term(&pair.0, from) != same_term(&pair.1, to) {
            return false;
        }
    }
    true
}

/// The pairs with one more, where it may come to them.
fn paired(
    mut pairs: Vec<(Term, Term)>,
    from: &Term,
    to: &Term,
) -> Result<Option<Vec<(Term, Term)>>, AllocError>
    ensures { IfOk result (λ r. option_map {U = List (Tm × Tm)} (λ v. v.items) r ≡ paired pairs.items from.now to.now) }
{
    if !may_pair(pairs.as_slice(), from, to) {
        return Ok(None);
    }
    pairs.push((from.copy()?, to.copy()?))?;
    Ok(Some(pairs))
}

/// The pairs, and those by which the unknowns of the first term are renamed to give the second.
fn renaming(
    pairs: Vec<(Term, Term)>,
    from: &Term,
    to: &Term,
) -> Result<Option<Vec<(Term, Term)>>, AllocError>
    ensures { IfOk result (λ r. option_map {U = List (Tm × Tm)} (λ v. v.items) r ≡ renaming pairs.items from.now to.now) }
{
    match from.view() {
        TermNode::Unknown(_, _, typ) => match to.view() {
            TermNode::Unknown(_, _, other) => {
                if same_typ(typ, other) {
                    paired(pairs, from, to)
                } else {
                    Ok(None)
                }
            }
            _ => Ok(None),
        },
        TermNode::Abs(_, typ, body) => match to.view() {
            TermNode::Abs(_, other, inner) => {
                if same_typ(typ, other) {
                    renaming(pairs, body, inner)
                } else {
                    Ok(None)
                }
            }
            _ => Ok(None),
        },
        TermNode::App(fun, arg) => match to.view() {
            TermNode::App(head, last) => {
                let Some(pairs) = renaming(pairs, fun, head)? else {
                    return Ok(None);
                };
                renaming(pairs, arg, last)
            }
            _ => Ok(None),
        },
        TermNode::Const(_, _) | TermNode::Free(_, _) | TermNode::Bound(_) => {
            if same_term(from, to) {
                Ok(Some(pairs))
            } else {
                Ok(None)
            }
        }
    }
}

/// Whether a renaming of unknowns, one to one, makes the first term equal to the second.
pub(crate) fn is_renamed(alloc: Global, from: &Term, to: &Term) -> Result<bool, AllocError>
    ensures { IfOk result (λ b. b ≡ is_renamed from.now to.now) }
{
    Ok(renaming(Vec::new(alloc), from, to)?.is_some())
}
