//! Most general unifiers of equations of types, found by bindings that are followed late.

ghost use Rattle.std.specs.Prelude.{◌≡◌, ◌++◌, ◌&&◌, [], ◌∷◌, List, ℕ, nat_eq, None, Some, IfOk, IfSome, IfNone, OnOk};
ghost use Rattle.std.specs.Option.{option_copied};
ghost use Rattle.isa_terms.specs.Types.{tys_of, TyCon, TyUnknown};
ghost use Rattle.isa_terms.specs.Equal.{name_eq};
ghost use Rattle.isa_terms.specs.declared.inst.TypeEntry.{TypeEntry};
ghost use Rattle.isa_unify.specs.TypeUnification.{Unifies};
ghost use Rattle.isa_typing.specs.Found.{found_in, found_at, Binds, FindsSame, EqualUnder, TellsStanding, TellStanding, Steps, Pairs, Solves, Meets, IsUnifier};

use indexmap::IndexMap;
use isa_terms::{Name, Typ, TypNode, same_typ};
use std::alloc::{AllocError, Global};

/// How many calls may be nested where a type is walked.
pub(crate) const DEPTH: u32 = 40_000;

/// What is found of the type, if it is a variable.
pub(crate) fn found_at(
    found: &IndexMap<(Name, u32), Typ>,
    typ: &Typ,
) -> Result<Option<Typ>, AllocError>
    ensures { IfOk result (λ r. r ≡ found_at (found_in found.now.entries) typ.now) }
{
    match typ.view() {
        TypNode::Unknown(name, number) => match found.get(&(name.copy()?, *number)) {
            Some(bound) => Ok(Some(bound.copy()?)),
            None => Ok(None),
        },
        TypNode::Con(_, _) | TypNode::Fixed(_) => Ok(None),
    }
}

/// Binds the variable to the type.
pub(crate) fn bind(
    found: &mut IndexMap<(Name, u32), Typ>,
    name: &Name,
    number: u32,
    typ: &Typ,
) -> Result<(), AllocError>
    ensures { OnOk result (Binds (found_in found.old.entries) name.now number typ.now (found_in found.new.entries)) }
{
    let typ = typ.copy()?;
    let variable = name.copy()?;
    found.insert((variable, number), typ)?;
    Ok(())
}

/// Binds a variable that is bound to another to what that is bound to.
#[tactic(auto, using(crate::proofs::Solved::shortened_at, crate::proofs::Solved::same_found))]
fn shorten(
    found: &mut IndexMap<(Name, u32), Typ>,
    from: &Typ,
    next: &Typ,
    end: &Typ,
) -> Result<(), AllocError>
    requires first { found_at (found_in found.now.entries) from.now ≡ Some next.now }
    requires second { found_at (found_in found.now.entries) next.now ≡ Some end.now }
    ensures { OnOk result (FindsSame (found_in found.old.entries) (found_in found.new.entries)) }
{
    match from.view() {
        TypNode::Unknown(name, number) => {
            bind(found, name, *number, end)?;
            Ok(())
        }
        TypNode::Con(_, _) | TypNode::Fixed(_) => Ok(()),
    }
}

/// The type at the end of a chain of variables, which is made shorter.
#[tactic(auto, using(crate::proofs::Solved::same_found, crate::proofs::Solved::same_after, crate::proofs::Solved::next_equal))]
fn followed(found: &mut IndexMap<(Name, u32), Typ>, typ: &Typ) -> Result<Typ, AllocError>
    ensures equal { IfOk result (λ t. EqualUnder (found_in found.old.entries) t typ.now) }
    ensures end { IfOk result (λ t. found_at (found_in found.new.entries) t ≡ None) }
    ensures same { OnOk result (FindsSame (found_in found.old.entries) (found_in found.new.entries)) }
{
    let mut at = typ.copy()?;
    for _step in 0..u64::MAX {
        let Some(next) = found_at(found, &at)? else {
            return Ok(at);
        };
        let Some(end) = found_at(found, &next)? else {
            return Ok(next);
        };
        shorten(found, &at, &next, &end)?;
        at = end;
    }
    Err(AllocError)
}

/// Whether the variable stands in the type, under what is found.
#[cycle(stands)]
#[tactic(auto, using(crate::proofs::Solved::stands_on, crate::proofs::Solved::stands_end, crate::proofs::Solved::stands_nowhere, crate::proofs::Solved::stands_within))]
fn stands(
    found: &IndexMap<(Name, u32), Typ>,
    name: &Name,
    number: u32,
    typ: &Typ,
    depth: u32,
) -> Result<bool, AllocError>
    ensures { IfOk result (λ b. TellsStanding (found_in found.now.entries) name.now number typ.now b) }
{
    if depth == 0 {
        return Err(AllocError);
    }
    if let Some(bound) = found_at(found, typ)? {
        let answer = stands(found, name, number, &bound, depth - 1)?;
        return Ok(answer);
    }
    match typ.view() {
        TypNode::Con(_, args) => {
            let answer = stand(found, name, number, args.as_slice(), depth - 1)?;
            Ok(answer)
        }
        TypNode::Fixed(_) => Ok(false),
        TypNode::Unknown(other, count) => {
            let answer = is_variable(other, *count, name, number);
            Ok(answer)
        }
    }
}

/// Whether the variables are the same.
fn is_variable(name: &Name, number: u32, other: &Name, count: u32) -> bool
    ensures { result ≡ (name_eq name.now other.now && nat_eq number count) }
{
    name.same(other) && number == count
}

#[cycle(stands)]
#[tactic(auto, using(crate::proofs::Solved::stand_more, crate::proofs::Solved::stand_end))]
fn stand(
    found: &IndexMap<(Name, u32), Typ>,
    name: &Name,
    number: u32,
    args: &[Typ],
    depth: u32,
) -> Result<bool, AllocError>
    ensures { IfOk result (λ b. TellStanding (found_in found.now.entries) name.now number (tys_of args.now) b) }
{
    if depth == 0 {
        return Err(AllocError);
    }
    match args.split_first() {
        None => Ok(false),
        Some((first, rest)) => {
            let here = stands(found, name, number, first, depth - 1)?;
            let there = stand(found, name, number, rest, depth - 1)?;
            Ok(here || there)
        }
    }
}

/// Binds the variable to the type, unless it stands in it.
fn solve(
    found: &mut IndexMap<(Name, u32), Typ>,
    name: &Name,
    number: u32,
    typ: &Typ,
) -> Result<bool, AllocError>
    ensures { IfOk result (λ going. Solves going (found_in found.old.entries) name.now number typ.now (found_in found.new.entries)) }
{
    if stands(found, name, number, typ, DEPTH)? {
        return Ok(false);
    }
    bind(found, name, number, typ)?;
    Ok(true)
}

/// A step on an equation of an open variable and another type.
#[tactic(auto, using(crate::proofs::Solved::meets_same, crate::proofs::Solved::meets_left))]
fn meet_left(
    found: &mut IndexMap<(Name, u32), Typ>,
    name: &Name,
    number: u32,
    left: &Typ,
    right: &Typ,
) -> Result<bool, AllocError>
    requires is_variable { left.now ≡ TyUnknown name.now number }
    requires is_open { found_in found.now.entries name.now number ≡ None }
    requires is_end { found_at (found_in found.now.entries) right.now ≡ None }
    ensures { IfOk result (λ going. Meets going (found_in found.old.entries) left.now right.now (found_in found.new.entries)) }
{
    if same_typ(left, right) {
        return Ok(true);
    }
    let going = solve(found, name, number, right)?;
    Ok(going)
}

/// Likewise with the variable on the right.
#[tactic(auto, using(crate::proofs::Solved::meets_same_right, crate::proofs::Solved::meets_right))]
fn meet_right(
    found: &mut IndexMap<(Name, u32), Typ>,
    name: &Name,
    number: u32,
    left: &Typ,
    right: &Typ,
) -> Result<bool, AllocError>
    requires is_variable { right.now ≡ TyUnknown name.now number }
    requires is_open { found_in found.now.entries name.now number ≡ None }
    requires is_end { found_at (found_in found.now.entries) left.now ≡ None }
    ensures { IfOk result (λ going. Meets going (found_in found.old.entries) left.now right.now (found_in found.new.entries)) }
{
    if same_typ(right, left) {
        return Ok(true);
    }
    let going = solve(found, name, number, left)?;
    Ok(going)
}

/// Puts the equation behind the others.
fn push_pair(work: &mut Vec<(Typ, Typ)>, left: &Typ, right: &Typ) -> Result<(), AllocError>
    ensures { OnOk result (work.new.items ≡ work.old.items ++ (left.now, right.now) ∷ []) }
{
    let left = left.copy()?;
    let right = right.copy()?;
    work.push((left, right))?;
    Ok(())
}

/// Puts the equations of the arguments behind the others, where there are as many.
#[tactic(auto, using(crate::proofs::Solved::pairs_more, crate::proofs::Solved::pairs_none, crate::proofs::Solved::pairs_end))]
fn push_pairs(work: &mut Vec<(Typ, Typ)>, args: &[Typ], others: &[Typ]) -> Result<bool, AllocError>
    ensures { IfOk result (λ going. Pairs going (tys_of args.now) (tys_of others.now) work.old.items work.new.items) }
{
    match (args.split_first(), others.split_first()) {
        (None, None) => Ok(true),
        (Some((left, rest)), Some((right, more))) => {
            if !push_pairs(work, rest, more)? {
                return Ok(false);
            }
            push_pair(work, left, right)?;
            Ok(true)
        }
        _ => Ok(false),
    }
}

/// A step on an equation of two types of one constructor, or of two.
#[tactic(auto, using(crate::proofs::Solved::step_arguments, crate::proofs::Solved::step_constructors))]
fn meet_constructors(
    found: &IndexMap<(Name, u32), Typ>,
    work: &mut Vec<(Typ, Typ)>,
    name: &Name,
    args: &[Typ],
    other: &Name,
    others: &[Typ],
) -> Result<bool, AllocError>
    ensures { IfOk result (λ going. Steps going (work.old.items ++ (TyCon name.now (tys_of args.now), TyCon other.now (tys_of others.now)) ∷ []) (found_in found.now.entries) work.new.items (found_in found.now.entries)) }
{
    if name.same(other) {
        let going = push_pairs(work, args, others)?;
        Ok(going)
    } else {
        Ok(false)
    }
}

/// A step on an equation of two ends.
#[tactic(auto, using(crate::proofs::Solved::meets_step, crate::proofs::Solved::step_same_fixed, crate::proofs::Solved::step_variables, crate::proofs::Solved::step_apart, crate::proofs::Solved::step_apart_right))]
fn meet(
    found: &mut IndexMap<(Name, u32), Typ>,
    work: &mut Vec<(Typ, Typ)>,
    left: &Typ,
    right: &Typ,
) -> Result<bool, AllocError>
    requires left { found_at (found_in found.now.entries) left.now ≡ None }
    requires right { found_at (found_in found.now.entries) right.now ≡ None }
    ensures { IfOk result (λ going. Steps going (work.old.items ++ (left.now, right.now) ∷ []) (found_in found.old.entries) work.new.items (found_in found.new.entries)) }
{
    match (left.view(), right.view()) {
        (TypNode::Unknown(name, number), _) => {
            let going = meet_left(found, name, *number, left, right)?;
            Ok(going)
        }
        (_, TypNode::Unknown(name, number)) => {
            let going = meet_right(found, name, *number, left, right)?;
            Ok(going)
        }
        (TypNode::Fixed(name), TypNode::Fixed(other)) => {
            if name.same(other) {
                Ok(true)
            } else {
                Ok(false)
            }
        }
        (TypNode::Con(name, args), TypNode::Con(other, others)) => {
            let going = meet_constructors(
                found,
                work,
                name,
                args.as_slice(),
                other,
                others.as_slice(),
            )?;
            Ok(going)
        }
        (TypNode::Fixed(_), TypNode::Con(_, _)) => Ok(false),
        (TypNode::Con(_, _), TypNode::Fixed(_)) => Ok(false),
    }
}

/// A step on an equation that stood behind the others.
#[tactic(auto, using(crate::proofs::Solved::steps_followed, crate::proofs::Solved::same_after, crate::proofs::Solved::equal_there, crate::proofs::Solved::still_end))]
fn advance(
    found: &mut IndexMap<(Name, u32), Typ>,
    work: &mut Vec<(Typ, Typ)>,
    left: &Typ,
    right: &Typ,
) -> Result<bool, AllocError>
    ensures { IfOk result (λ going. Steps going (work.old.items ++ (left.now, right.now) ∷ []) (found_in found.old.entries) work.new.items (found_in found.new.entries)) }
{
    let left_end = followed(found, left)?;
    let right_end = followed(found, right)?;
    let going = meet(found, work, &left_end, &right_end)?;
    Ok(going)
}

/// What a most general unifier of the equations binds its variables to; `None` where they have no unifier.
#[tactic(auto, using(crate::proofs::Solved::leads_empty, crate::proofs::Solved::leads_after, crate::proofs::Solved::solved_all, crate::proofs::Solved::solved_none))]
pub(crate) fn solution_of(
    alloc: Global,
    mut work: Vec<(Typ, Typ)>,
) -> Result<Option<IndexMap<(Name, u32), Typ>>, AllocError>
    ensures found { IfOk result (λ r. IfSome r (λ found. IsUnifier work.items (found_in found.entries))) }
    ensures none { IfOk result (λ r. IfNone r ((q : List TypeEntry) → Unifies q work.items → ⊥)) }
{
    let mut found: IndexMap<(Name, u32), Typ> = IndexMap::new(alloc);
    for _step in 0..u64::MAX {
        let Some((left, right)) = work.pop() else {
            return Ok(Some(found));
        };
        if !advance(&mut found, &mut work, &left, &right)? {
            return Ok(None);
        }
    }
    Err(AllocError)
}
