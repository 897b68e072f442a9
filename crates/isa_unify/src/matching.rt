//! Matching of patterns.

ghost use Rattle.std.specs.Prelude.{◌≡◌, ◌++◌, [], ◌∷◌, IfOk, IfSome, IfNone, IsTrue, false, cond, Some, None, Option, option_map};
ghost use Rattle.isa_terms.specs.Types.{tys_of};
ghost use Rattle.isa_terms.specs.Instance.{Instance, find_term};
ghost use Rattle.isa_terms.specs.Terms.{App, Bound};
ghost use Rattle.isa_terms.specs.Replace.{raise};
ghost use Rattle.isa_unify.specs.Matching.{ty_matched, tys_matched, flexible, is_fixed, to_solve, bound_to, solved, typed, matched, closed_type, match_from, match_of, all_from, match_all_of, IsAsked, IsMatch, IsTheMatch, AreAsked, AreMatched, AllMatch, IsSettled, AreAskedFrom, AreMatchedFrom, AllMatchFrom};
ghost use Rattle.isa_unify.specs.BinderLists.{binders_in, flexible_of};
ghost use Rattle.isa_unify.specs.Spines.{is_flexible};

use crate::binders::solution;
use crate::equation::{Binders, Variable};
use crate::numbers::Numbers;
use crate::patterns::{Pattern, Unknown};
use crate::spines::is_flexible;
use isa_terms::{
    IllTyped, Inst, Term, TermNode, Typ, TypNode, find_term, find_type, inst_typ, raised,
    same_term, same_typ, type_of,
};
use std::alloc::{AllocError, Global};

/// Adds what makes the first type to the second, where that can be had. If not, some of it may have been added.
#[cycle(types)]
fn extend_types(alloc: Global, inst: &mut Inst, typ: &Typ, wanted: &Typ) -> Result<bool, AllocError>
    ensures { IfOk result (λ yes. ty_matched inst.old typ.now wanted.now ≡ cond yes (Some inst.new) None) }
{
    match (typ.view(), wanted.view()) {
        (TypNode::Unknown(name, number), _) => {
            if let Some(found) = find_type(name, *number, inst.types().as_slice()) {
                return Ok(same_typ(found, wanted));
            }
            inst.put_type(alloc, name.copy()?, *number, wanted.copy()?)?;
            Ok(true)
        }
        (TypNode::Fixed(name), TypNode::Fixed(other)) => Ok(name.same(other)),
        (TypNode::Con(name, args), TypNode::Con(other, others)) => Ok(
            name.same(other) && extend_all_types(alloc, inst, args.as_slice(), others.as_slice())?,
        ),
        _ => Ok(false),
    }
}

#[cycle(types)]
fn extend_all_types(
    alloc: Global,
    inst: &mut Inst,
    args: &[Typ],
    others: &[Typ],
) -> Result<bool, AllocError>
    ensures { IfOk result (λ yes. tys_matched inst.old (tys_of args.now) (tys_of others.now) ≡ cond yes (Some inst.new) None) }
{
    match (args.split_first(), others.split_first()) {
        (None, None) => Ok(true),
        (Some((first, rest)), Some((other, more))) => Ok(
            extend_types(alloc, inst, first, other)? && extend_all_types(alloc, inst, rest, more)?,
        ),
        _ => Ok(false),
    }
}

/// The term as an unknown applied to bound variables, where it is one.
fn flexible<'a>(alloc: Global, t: &'a Term) -> Result<Option<Pattern<'a>>, AllocError>
    ensures { IfOk result (λ found. option_map flexible_of found ≡ flexible t.now) }
{
    match t.view() {
        TermNode::Unknown(name, number, typ) => {
            let number = *number;
            Ok(Some(Pattern {
                unknown: Unknown { name, number, typ },
                variables: Numbers::new(alloc),
            }))
        }
        TermNode::App(fun, arg) => {
            let Some(mut spine) = flexible(alloc, fun)? else {
                return Ok(None);
            };
            let TermNode::Bound(number) = arg.view() else {
                return Ok(None);
            };
            spine.variables.push(*number)?;
            Ok(Some(spine))
        }
        _ => Ok(None),
    }
}

/// Whether the unknown counts as a constant, since the instance maps it to itself.
fn is_fixed(inst: &Inst, spine: &Pattern<'_>) -> bool
    ensures { result ≡ is_fixed inst.now spine.now.unknown.name.now spine.now.unknown.number spine.now.unknown.typ.now }
{
    let Unknown { name, number, typ } = &spine.unknown;
    match find_term(name, *number, typ, inst.terms().as_slice()) {
        None => false,
        Some(found) => match found.view() {
            TermNode::Unknown(other, count, kind) => {
                other.same(name) && *count == *number && same_typ(kind, typ)
            }
            _ => false,
        },
    }
}

/// The term as an unknown that is to be solved, applied to bound variables, where it is one: not where no unknown stands
/// at its head.
#[tactic(auto, using(crate::proofs::Unvisited::rigid_stays))]
fn to_solve<'a>(
    alloc: Global,
    inst: &Inst,
    t: &'a Term,
    is_rigid: bool,
) -> Result<Option<Pattern<'a>>, AllocError>
    requires { IsTrue is_rigid → is_flexible t.now ≡ false }
    ensures { IfOk result (λ found. option_map flexible_of found ≡ to_solve inst.now t.now) }
{
    if is_rigid {
        return Ok(None);
    }
    let spine = flexible(alloc, t)?;
    match t.view() {
        TermNode::App(_, _) => match spine {
            None => Ok(None),
            Some(spine) => {
                if is_fixed(inst, &spine) {
                    Ok(None)
                } else {
                    Ok(Some(spine))
                }
            }
        },
        _ => Ok(spine),
    }
}

/// Adds the term for the unknown, unless another one stands for it.
fn bind(alloc: Global, inst: &mut Inst, spine: &Pattern<'_>, term: Term) -> Result<bool, AllocError>
    ensures { IfOk result (λ yes. bound_to (find_term spine.now.unknown.name.now spine.now.unknown.number spine.now.unknown.typ.now inst.old.terms) inst.old (flexible_of spine.now) term ≡ cond yes (Some inst.new) None) }
{
    let Unknown { name, number, typ } = &spine.unknown;
    if let Some(found) = find_term(name, *number, typ, inst.terms().as_slice()) {
        return Ok(same_term(found, &term));
    }
    inst.put_term(alloc, name.copy()?, *number, typ.copy()?, term)?;
    Ok(true)
}

/// Adds the abstraction of the term over the unknown's arguments, where no variable stays loose in it.
#[tactic(auto, using(crate::proofs::Unvisited::closed_below, crate::proofs::Unvisited::open_above))]
fn solve(
    alloc: Global,
    binders: &Binders,
    inst: &mut Inst,
    spine: &Pattern<'_>,
    term: &Term,
) -> Result<bool, AllocError>
    ensures { IfOk result (λ yes. solved (binders_in binders.now) inst.old (flexible_of spine.now) term.now ≡ cond yes (Some inst.new) None) }
{
    let Some(found) = solution(alloc, binders, spine.variables.as_slice(), term)? else {
        return Ok(false);
    };
    if found.is_open() {
        return Ok(false);
    }
    bind(alloc, inst, spine, found)
}

/// The term, one binder deeper, applied to the variable of that binder.
fn opened(alloc: Global, term: &Term) -> Result<Term, AllocError>
    ensures { IfOk result (λ t. t ≡ App (raise 1 0 term.now) (Bound 0)) }
{
    let fun = raised(alloc, 1, 0, term)?;
    let variable = Term::new(alloc, TermNode::Bound(0))?;
    Term::new(alloc, TermNode::App(fun, variable))
}

/// Whether no unknown is known to stand at the head of the function part.
fn is_rigid_part(is_rigid: bool, fun: &Term) -> bool
    requires { IsTrue is_rigid → is_flexible fun.now ≡ false }
    ensures { IsTrue result → is_flexible fun.now ≡ false }
{
    is_rigid || !is_flexible(fun)
}

/// Adds what makes the pattern equal to the term, where it can be had. If not, some of it may have been added.
fn extend(
    alloc: Global,
    binders: &Binders,
    inst: &mut Inst,
    pattern: &Term,
    term: &Term,
    is_rigid: bool,
) -> Result<bool, AllocError>
    requires { IsTrue is_rigid → is_flexible pattern.now ≡ false }
    ensures { IfOk result (λ yes. matched (binders_in binders.now) inst.old pattern.now term.now ≡ cond yes (Some inst.new) None) }
{
    if let Some(spine) = to_solve(alloc, inst, pattern, is_rigid)? {
        return solve(alloc, binders, inst, &spine, term);
    }
    match (pattern.view(), term.view()) {
        (TermNode::Const(name, typ), TermNode::Const(other, wanted))
        | (TermNode::Free(name, typ), TermNode::Free(other, wanted)) => Ok(
            name.same(other) && extend_types(alloc, inst, typ, wanted)?,
        ),
        (TermNode::Bound(number), TermNode::Bound(other)) => Ok(*number == *other),
        (TermNode::Abs(name, _, body), TermNode::Abs(_, typ, other)) => {
            let variable = Variable {
                name: name.copy()?,
                typ: typ.copy()?,
            };
            let under = binders.under(alloc, variable)?;
            extend(alloc, &under, inst, body, other, false)
        }
        (TermNode::Abs(name, typ, body), _) => {
            let variable = Variable {
                name: name.copy()?,
                typ: inst_typ(alloc, inst.types().as_slice(), typ)?,
            };
            let under = binders.under(alloc, variable)?;
            extend(alloc, &under, inst, body, &opened(alloc, term)?, false)
        }
        (TermNode::App(fun, arg), TermNode::App(other, argument)) => {
            let is_rigid = is_rigid_part(is_rigid, fun);
            Ok(
                extend(alloc, binders, inst, fun, other, is_rigid)?
                    && extend(alloc, binders, inst, arg, argument, false)?,
            )
        }
        _ => Ok(false),
    }
}

/// The type of a term that is well typed without loose bound variables.
fn closed_type(alloc: Global, t: &Term) -> Result<Option<Typ>, AllocError>
    ensures { IfOk result (λ found. found ≡ closed_type t.now) }
{
    match type_of(alloc, t) {
        Ok(typ) => Ok(Some(typ)),
        Err(IllTyped::Memory) => Err(AllocError),
        Err(_) => Ok(None),
    }
}

/// Adds what makes the pattern equal to the term, where it can be had, its types first.
fn extend_by(
    alloc: Global,
    inst: &mut Inst,
    pattern: &Term,
    term: &Term,
) -> Result<bool, AllocError>
    ensures { IfOk result (λ yes. match_from inst.old pattern.now term.now ≡ cond yes (Some inst.new) None) }
{
    let Some(typ) = closed_type(alloc, pattern)? else {
        return Ok(false);
    };
    let Some(wanted) = closed_type(alloc, term)? else {
        return Ok(false);
    };
    Ok(
        extend_types(alloc, inst, &typ, &wanted)?
            && extend(alloc, &Binders::none(alloc)?, inst, pattern, term, false)?,
    )
}

/// Adds what makes each pattern equal to the term at its place, where it can be had.
fn extend_by_all(
    alloc: Global,
    inst: &mut Inst,
    patterns: &[Term],
    terms: &[Term],
) -> Result<bool, AllocError>
    ensures { IfOk result (λ yes. all_from inst.old patterns.now terms.now ≡ cond yes (Some inst.new) None) }
{
    match (patterns.split_first(), terms.split_first()) {
        (None, None) => Ok(true),
        (Some((pattern, rest)), Some((term, more))) => Ok(
            extend_by(alloc, inst, pattern, term)? && extend_by_all(alloc, inst, rest, more)?,
        ),
        _ => Ok(false),
    }
}

/// The match of the pattern with the term, if there is one.
fn find_match(alloc: Global, pattern: &Term, term: &Term) -> Result<Option<Inst>, AllocError>
    ensures { IfOk result (λ found. found ≡ match_of pattern.now term.now) }
{
    let mut inst = Inst::new(alloc);
    let found = extend_by(alloc, &mut inst, pattern, term)?;
    Ok(found.then_some(inst))
}

/// The instance with what matches the patterns with the terms, if there is such.
fn find_match_from(
    alloc: Global,
    patterns: &[Term],
    terms: &[Term],
    start: &Inst,
) -> Result<Option<Inst>, AllocError>
    ensures { IfOk result (λ found. found ≡ all_from start.now patterns.now terms.now) }
{
    let mut inst = start.copy(alloc)?;
    let found = extend_by_all(alloc, &mut inst, patterns, terms)?;
    Ok(found.then_some(inst))
}

/// The match of the patterns with the terms, if there is one.
fn find_match_of_all(
    alloc: Global,
    patterns: &[Term],
    terms: &[Term],
) -> Result<Option<Inst>, AllocError>
    ensures { IfOk result (λ found. found ≡ match_all_of patterns.now terms.now) }
{
    let mut inst = Inst::new(alloc);
    let found = extend_by_all(alloc, &mut inst, patterns, terms)?;
    Ok(found.then_some(inst))
}

/// The instance of the pattern's unknowns and type unknowns that makes the pattern equal to the term, if there is one.
///
/// The unknowns of the term count as constants. Where both are well typed without loose bound variables and in normal
/// form, and the one is a pattern, it is the only one, and `None` comes where there is none. A term for an unknown takes
/// the names of the bound variables to which the unknown is applied.
#[tactic(auto, using(crate::proofs::MatchAnswers::found_match, crate::proofs::MatchAnswers::no_match))]
pub fn match_pattern(alloc: Global, pattern: &Term, term: &Term) -> Result<Option<Inst>, AllocError>
    ensures answer { IfOk result (λ found. found ≡ match_of pattern.now term.now) }
    ensures found { IfOk result (λ found. IfSome found (λ inst. IsAsked pattern.now term.now → IsTheMatch pattern.now term.now inst)) }
    ensures none { IfOk result (λ found. IfNone found (IsAsked pattern.now term.now → (s : Instance) → IsMatch pattern.now term.now s → ⊥)) }
{
    find_match(alloc, pattern, term)
}

/// The one instance of the patterns' unknowns and type unknowns that makes each pattern equal to the term at its place, if there is one.
///
/// As `match_pattern`, for lists. There is none where the lists are not equally long.
#[tactic(auto, using(crate::proofs::AllMatches::found_all, crate::proofs::AllMatches::none_of_all))]
pub fn match_patterns(
    alloc: Global,
    patterns: &[Term],
    terms: &[Term],
) -> Result<Option<Inst>, AllocError>
    ensures answer { IfOk result (λ found. found ≡ match_all_of patterns.now terms.now) }
    ensures found { IfOk result (λ found. IfSome found (λ inst. AreAsked patterns.now terms.now → AllMatch patterns.now terms.now inst)) }
    ensures none { IfOk result (λ found. IfNone found (AreAsked patterns.now terms.now → (s : Instance) → AreMatched patterns.now terms.now s → ⊥)) }
{
    find_match_of_all(alloc, patterns, terms)
}

/// The instance `start` with terms and types for the other unknowns and type unknowns of the patterns that makes each
/// pattern equal to the term at its place, if there is one.
///
/// Only what has no entry in `start` is instantiated. An unknown or type unknown that `start` maps to itself counts as a
/// constant, and may be applied to any terms. As with `match_patterns`, the one such instance is found, where the terms of `start` are normal, have the
/// types of their unknowns, and `start` has the type unknowns of these types; so what was found can be gone on from.
#[tactic(auto, using(crate::proofs::StartMatches::none_from))]
pub fn match_patterns_from(
    alloc: Global,
    patterns: &[Term],
    terms: &[Term],
    start: &Inst,
) -> Result<Option<Inst>, AllocError>
    ensures answer { IfOk result (λ found. found ≡ all_from start.now patterns.now terms.now) }
    ensures found { IfOk result (λ found. IfSome found (λ inst. IsSettled start.now → AreAskedFrom start.now patterns.now terms.now → AllMatchFrom start.now patterns.now terms.now inst)) }
    ensures none { IfOk result (λ found. IfNone found (IsSettled start.now → AreAskedFrom start.now patterns.now terms.now → (s : Instance) → AreMatchedFrom start.now patterns.now terms.now s → ⊥)) }
{
    find_match_from(alloc, patterns, terms, start)
}
