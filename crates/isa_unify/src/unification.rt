//! Unification of terms.

ghost use Rattle.std.specs.Prelude.{◌≡◌, ℕ, List, [], IfOk};
ghost use Rattle.isa_terms.specs.Types.{Ty};
ghost use Rattle.isa_unify.specs.TypeStacks.{stack_of};
ghost use Rattle.isa_unify.specs.Unification.{asked_types, asked_terms, all_types, start, unless_clash, answer_at, unify};
ghost use Rattle.isa_unify.specs.Calls.{equation, equations_of, type_if_any, AreOnce, Answers, IsRight, MayFollow, IsInside};
ghost use Rattle.isa_unify.specs.UnifyLaw.{AreGiven};
ghost use Rattle.isa_unify.specs.PatternLaw.{ArePatterns};

use crate::asking::{add_types, add_unknowns};
use crate::clashing::clashes;
use crate::equation::{Binders, Equation, Equations};
use crate::filling::retyped_state;
use crate::fresh::Fresh;
use crate::progress::{Answer, State};
use crate::steps::unified;
use crate::types::{TypePair, unified_pairs};
use isa_terms::{IllTyped, Inst, Term, TermEntries, Typ, TypeEntries, type_of};
use std::alloc::{AllocError, Global};

/// Two terms that are to be made equal; the left one is the rule's.
#[derive(Drop)]
pub struct TermPair {
    pub left: Term,
    pub right: Term,
}

/// What a unification answers.
#[derive(Drop)]
pub enum Unified {
    /// A most general instance.
    Yes(Inst),
    /// There is no instance.
    No,
    /// An unknown stands before other arguments than distinct bound variables, or more than
    /// 1,000,000 new unknowns would be needed.
    Outside,
}

fn equations_of(alloc: Global, pairs: &[TermPair]) -> Result<Equations, AllocError>
    ensures { IfOk result (λ es. es ≡ equations_of pairs.now) }
{
    match pairs.split_first() {
        None => Ok(Equations::new(alloc)),
        Some((first, rest)) => {
            let mut equations = equations_of(alloc, rest)?;
            equations.put_first(Equation {
                binders: Binders::none(alloc)?,
                left: first.left.copy()?,
                right: first.right.copy()?,
            })?;
            Ok(equations)
        }
    }
}

/// The type of the term, where it has one.
fn typ_of(alloc: Global, t: &Term) -> Result<Option<Typ>, AllocError>
    ensures { IfOk result (λ T. T ≡ type_if_any t.now) }
{
    match type_of(alloc, t) {
        Ok(typ) => Ok(Some(typ)),
        Err(IllTyped::Memory) => Err(AllocError),
        Err(_) => Ok(None),
    }
}

/// The types of the sides, the first pair's on top, where both sides have one.
fn type_pairs(alloc: Global, pairs: &[TermPair]) -> Result<Vec<TypePair>, AllocError>
    ensures { IfOk result (λ types. stack_of types.items ≡ all_types (equations_of pairs.now)) }
{
    match pairs.split_first() {
        None => Ok(Vec::new(alloc)),
        Some((first, rest)) => {
            let mut types = type_pairs(alloc, rest)?;
            if let (Some(left), Some(right)) = (
                typ_of(alloc, &first.left)?,
                typ_of(alloc, &first.right)?,
            ) {
                types.push(TypePair { left, right })?;
            }
            Ok(types)
        }
    }
}

/// The type unknowns of the pairs, each as itself.
fn asked_types(alloc: Global, pairs: &[TermPair]) -> Result<TypeEntries, AllocError>
    ensures { IfOk result (λ types. types ≡ asked_types [] (equations_of pairs.now)) }
{
    let mut types = TypeEntries::new(alloc);
    for pair in pairs {
        add_types(&pair.left, &mut types)?;
        add_types(&pair.right, &mut types)?;
    }
    Ok(types)
}

/// The unknowns of the pairs, each as itself.
fn asked_terms(alloc: Global, pairs: &[TermPair]) -> Result<TermEntries, AllocError>
    ensures { IfOk result (λ terms. terms ≡ asked_terms [] (equations_of pairs.now)) }
{
    let mut terms = TermEntries::new(alloc);
    for pair in pairs {
        add_unknowns(&pair.left, &mut terms)?;
        add_unknowns(&pair.right, &mut terms)?;
    }
    Ok(terms)
}

/// The state from which the pairs are unified, with new unknowns from that number on.
fn start(alloc: Global, pairs: &[TermPair], next: u32) -> Result<State, AllocError>
    ensures { IfOk result (λ st. st ≡ start (equations_of pairs.now) next) }
{
    Ok(State {
        equations: equations_of(alloc, pairs)?,
        types: asked_types(alloc, pairs)?,
        terms: asked_terms(alloc, pairs)?,
        next,
        left: 1_000_000,
    })
}

/// The end of the steps, unless heads clash.
fn unless_clash(alloc: Global, state: State) -> Result<Answer, AllocError>
    ensures { IfOk result (λ a. a ≡ unless_clash state) }
{
    if clashes(alloc, state.equations.copied(alloc)?)? {
        Ok(Answer::No)
    } else {
        unified(alloc, state)
    }
}

/// The types, then the clashes, then the equations from the front.
#[tactic(auto, unfolding(crate::specs::Unification::unify))]
fn answer_of(alloc: Global, pairs: &[TermPair], next: u32) -> Result<Answer, AllocError>
    ensures { IfOk result (λ a. a ≡ unify (equations_of pairs.now) next) }
{
    match unified_pairs(alloc, type_pairs(alloc, pairs)?)? {
        None => Ok(Answer::No),
        Some(types) => {
            let state = start(alloc, pairs, next)?;
            unless_clash(alloc, retyped_state(alloc, types.as_slice(), state)?)
        }
    }
}

/// The instance of those entries, each for another unknown.
#[tactic(auto, using(crate::proofs::Entries::next_type, crate::proofs::Entries::next_term))]
pub fn inst_of(alloc: Global, types: &TypeEntries, terms: &TermEntries) -> Result<Inst, AllocError>
    requires { AreOnce types.now terms.now }
    ensures { IfOk result (λ s. s ≡ record { types = types.now; terms = terms.now }) }
{
    let mut inst = Inst::new(alloc);
    for entry in types.as_slice() {
        inst.put_type(alloc, entry.name.copy()?, entry.number, entry.typ.copy()?)?;
    }
    for entry in terms.as_slice() {
        inst.put_term(
            alloc,
            entry.name.copy()?,
            entry.number,
            entry.typ.copy()?,
            entry.term.copy()?,
        )?;
    }
    Ok(inst)
}

/// What unification of the pairs answers, and where `fresh` goes on.
#[tactic(auto, using(crate::proofs::Once::unify_once))]
fn answer_pairs(alloc: Global, pairs: &[TermPair], fresh: &mut Fresh) -> Result<Unified, AllocError>
    ensures { Answers result fresh.old fresh.new (unify (equations_of pairs.now) fresh.old) }
{
    match answer_of(alloc, pairs, fresh.number())? {
        Answer::Yes(types, terms, next) => {
            let inst = inst_of(alloc, &types, &terms)?;
            fresh.set(next);
            Ok(Unified::Yes(inst))
        }
        Answer::No => Ok(Unified::No),
        Answer::Outside => Ok(Unified::Outside),
    }
}

/// The same of two terms.
fn answer_two(
    alloc: Global,
    left: &Term,
    right: &Term,
    fresh: &mut Fresh,
) -> Result<Unified, AllocError>
    ensures { Answers result fresh.old fresh.new (unify (equation left.now right.now) fresh.old) }
{
    let pair = [TermPair {
        left: left.copy()?,
        right: right.copy()?,
    }];
    answer_pairs(alloc, &pair, fresh)
}

/// Unifies the pairs, the first one first. New unknowns are numbered from `fresh` on, which goes
/// on behind them where there is a unifier, and stays else. For well-typed normal terms whose
/// unknowns stand at one type each, with numbers below `fresh`, the instance is most general, and
/// `No` means that there is none. For normal patterns `Outside` means that more than 1,000,000 new
/// unknowns are needed.
pub fn unify_pairs(
    alloc: Global,
    pairs: &[TermPair],
    fresh: &mut Fresh,
) -> Result<Unified, AllocError>
    ensures answer { Answers result fresh.old fresh.new (unify (equations_of pairs.now) fresh.old) }
    ensures right { (typ : List ℕ → ℕ → Ty) → AreGiven typ fresh.old (equations_of pairs.now) → IsRight result (equations_of pairs.now) }
    ensures follow { (typ : List ℕ → ℕ → Ty) → AreGiven typ fresh.old (equations_of pairs.now) → MayFollow result typ fresh.old fresh.new (equations_of pairs.now) }
    ensures inside { ArePatterns (equations_of pairs.now) → IsInside result fresh.old (equations_of pairs.now) }
{
    answer_pairs(alloc, pairs, fresh)
}

/// Unifies two terms; the left one is the rule's. All that is said of `unify_pairs` holds.
pub fn unify(
    alloc: Global,
    left: &Term,
    right: &Term,
    fresh: &mut Fresh,
) -> Result<Unified, AllocError>
    ensures answer { Answers result fresh.old fresh.new (unify (equation left.now right.now) fresh.old) }
    ensures right { (typ : List ℕ → ℕ → Ty) → AreGiven typ fresh.old (equation left.now right.now) → IsRight result (equation left.now right.now) }
    ensures follow { (typ : List ℕ → ℕ → Ty) → AreGiven typ fresh.old (equation left.now right.now) → MayFollow result typ fresh.old fresh.new (equation left.now right.now) }
    ensures inside { ArePatterns (equation left.now right.now) → IsInside result fresh.old (equation left.now right.now) }
{
    answer_two(alloc, left, right, fresh)
}
