//! Unification of types.

ghost use Rattle.std.specs.Prelude.{◌≡◌, ◌∷◌, [], List, IfOk, IfSome, IfNone, option_map};
ghost use Rattle.isa_terms.specs.Instance.{inst_ty};
ghost use Rattle.isa_terms.specs.declared.inst.TypeEntry.{TypeEntry};
ghost use Rattle.isa_unify.specs.TypeUnification.{IsTypeUnifier, IsMostGeneral, Unifies};
ghost use Rattle.isa_unify.specs.TypeStacks.{set_all, resolved};
ghost use Rattle.isa_terms.specs.Types.{tys_of};
ghost use Rattle.isa_unify.specs.TypeUnification.{ty_has, tys_have, one, equations_under, paired, type_state, unify_typs};
ghost use Rattle.isa_unify.specs.TypeStacks.{pair_of, stack_of, Pushes, Solves, Advances};

use isa_terms::{Inst, Name, Typ, TypNode, TypeEntry, in_typ, inst_typ, same_typ};
use std::alloc::{AllocError, Global};

/// Two types that are to be made equal.
#[derive(Drop)]
pub struct TypePair {
    pub left: Typ,
    pub right: Typ,
}

/// Whether the type unknown stands in the type.
#[cycle(stands)]
#[tactic(auto, using(crate::proofs::Unvisited::ty_has_none))]
fn stands(name: &Name, number: u32, typ: &Typ) -> bool
    ensures { result ≡ ty_has name.now number typ.now }
{
    if !typ.has_unknowns() {
        return false;
    }
    match typ.view() {
        TypNode::Con(_, args) => stand(name, number, args.as_slice()),
        TypNode::Fixed(_) => false,
        TypNode::Unknown(other, count) => other.same(name) && *count == number,
    }
}

#[cycle(stands)]
fn stand(name: &Name, number: u32, args: &[Typ]) -> bool
    ensures { result ≡ tys_have name.now number (tys_of args.now) }
{
    match args.split_first() {
        None => false,
        Some((first, rest)) => stands(name, number, first) || stand(name, number, rest),
    }
}

/// The type unknown with its type.
fn one_entry(
    alloc: Global,
    name: &Name,
    number: u32,
    by: &Typ,
) -> Result<Vec<TypeEntry>, AllocError>
    ensures { IfOk result (λ entries. entries.items ≡ one name.now number by.now) }
{
    let mut entries = Vec::new(alloc);
    entries.push(TypeEntry {
        name: name.copy()?,
        number,
        typ: by.copy()?,
    })?;
    Ok(entries)
}

/// The type under the entries, shared where none of them is for a type unknown of it.
#[tactic(auto, using(isa_terms::proofs::Shared::inst_ty_none))]
pub fn typ_under(alloc: Global, types: &[TypeEntry], typ: &Typ) -> Result<Typ, AllocError>
    ensures { IfOk result (λ T. T ≡ inst_ty types.now typ.now) }
{
    if in_typ(types, typ) {
        inst_typ(alloc, types, typ)
    } else {
        typ.copy()
    }
}

/// The equations under the instance.
fn replace_pairs(
    alloc: Global,
    pairs: &[TypePair],
    by: &[TypeEntry],
) -> Result<Vec<TypePair>, AllocError>
    ensures { IfOk result (λ replaced. stack_of replaced.items ≡ equations_under by.now (stack_of pairs.now)) }
{
    let mut replaced = Vec::new(alloc);
    for pair in pairs {
        let left = typ_under(alloc, by, &pair.left)?;
        let right = typ_under(alloc, by, &pair.right)?;
        replaced.push(TypePair { left, right })?;
    }
    Ok(replaced)
}

/// Solves a type unknown, unless it stands in the type. What was found before stays as it is: it is looked up at the end.
#[tactic(auto, using(crate::proofs::Resolved::resolved_last))]
fn solve(
    alloc: Global,
    work: &mut Vec<TypePair>,
    solution: &mut Vec<TypeEntry>,
    name: &Name,
    number: u32,
    by: &Typ,
) -> Result<bool, AllocError>
    ensures { IfOk result (λ going. Solves going name.now number by.now (type_state (stack_of work.old.items) (resolved solution.old.items)) (type_state (stack_of work.new.items) (resolved solution.new.items))) }
{
    if stands(name, number, by) {
        return Ok(false);
    }
    let entry = one_entry(alloc, name, number, by)?;
    *work = replace_pairs(alloc, work, &entry)?;
    solution.push(TypeEntry {
        name: name.copy()?,
        number,
        typ: by.copy()?,
    })?;
    Ok(true)
}

/// The pairs of arguments above the equations, the first on top, where there are as many.
#[tactic(auto, using(crate::proofs::Stacks::stack_pushed))]
fn push_pairs(work: &mut Vec<TypePair>, args: &[Typ], others: &[Typ]) -> Result<bool, AllocError>
    ensures { IfOk result (λ going. Pushes going (paired (tys_of args.now) (tys_of others.now)) (stack_of work.old.items) (stack_of work.new.items)) }
{
    match (args.split_first(), others.split_first()) {
        (None, None) => Ok(true),
        (Some((left, rest)), Some((right, more))) => {
            if !push_pairs(work, rest, more)? {
                return Ok(false);
            }
            work.push(TypePair {
                left: left.copy()?,
                right: right.copy()?,
            })?;
            Ok(true)
        }
        _ => Ok(false),
    }
}

/// One step on an equation that stands before the others.
fn advance(
    alloc: Global,
    work: &mut Vec<TypePair>,
    solution: &mut Vec<TypeEntry>,
    pair: &TypePair,
) -> Result<bool, AllocError>
    ensures { IfOk result (λ going. Advances going (type_state (pair_of pair.now ∷ stack_of work.old.items) (resolved solution.old.items)) (type_state (stack_of work.new.items) (resolved solution.new.items))) }
{
    match (pair.left.view(), pair.right.view()) {
        (TypNode::Unknown(name, number), _) => {
            if same_typ(&pair.left, &pair.right) {
                Ok(true)
            } else {
                solve(alloc, work, solution, name, *number, &pair.right)
            }
        }
        (_, TypNode::Unknown(name, number)) => {
            solve(alloc, work, solution, name, *number, &pair.left)
        }
        (TypNode::Fixed(name), TypNode::Fixed(other)) => Ok(name.same(other)),
        (TypNode::Con(name, args), TypNode::Con(other, others)) => Ok(
            name.same(other) && push_pairs(work, args.as_slice(), others.as_slice())?,
        ),
        _ => Ok(false),
    }
}

/// The entries, each with its type under those that were found later.
#[tactic(auto, using(crate::proofs::Resolved::before_last))]
fn resolve(alloc: Global, mut entries: Vec<TypeEntry>) -> Result<Vec<TypeEntry>, AllocError>
    ensures { IfOk result (λ found. found.items ≡ resolved entries.items) }
{
    let mut found = Vec::new(alloc);
    while let Some(entry) = entries.pop() {
        let typ = typ_under(alloc, &found, &entry.typ)?;
        let TypeEntry { name, number, .. } = entry;
        found.insert(0, TypeEntry { name, number, typ })?;
    }
    Ok(found)
}

/// A most general unifier of the pairs, taken from the last one to the first, if there is one.
pub fn unified_pairs(
    alloc: Global,
    mut work: Vec<TypePair>,
) -> Result<Option<Vec<TypeEntry>>, AllocError>
    ensures { IfOk result (λ found. option_map (λ entries. entries.items) found ≡ unify_typs (stack_of work.items)) }
{
    let mut solution = Vec::new(alloc);
    while let Some(pair) = work.pop() {
        if !advance(alloc, &mut work, &mut solution, &pair)? {
            return Ok(None);
        }
    }
    Ok(Some(resolve(alloc, solution)?))
}

/// A most general unifier of the pairs, taken from the last one to the first; `None` where they have none.
#[tactic(auto, using(crate::proofs::TypeAnswers::pairs_unifier, crate::proofs::TypeAnswers::no_pairs_unifier))]
pub fn unify_type_pairs(
    alloc: Global,
    pairs: Vec<TypePair>,
) -> Result<Option<Vec<TypeEntry>>, AllocError>
    ensures answer { IfOk result (λ found. option_map (λ entries. entries.items) found ≡ unify_typs (stack_of pairs.items)) }
    ensures found { IfOk result (λ found. IfSome found (λ entries. IsMostGeneral (stack_of pairs.items) entries.items)) }
    ensures none { IfOk result (λ found. IfNone found ((r : List TypeEntry) → Unifies r (stack_of pairs.items) → ⊥)) }
{
    unified_pairs(alloc, pairs)
}

/// The entries as an instance without terms. Of two for one type unknown the first counts.
#[tactic(auto, using(crate::proofs::TypeAnswers::set_all_last))]
fn instance_of_types(alloc: Global, mut entries: Vec<TypeEntry>) -> Result<Inst, AllocError>
    ensures { IfOk result (λ inst. inst ≡ record { types = set_all [] entries.items; terms = [] }) }
{
    let mut inst = Inst::new(alloc);
    while let Some(entry) = entries.pop() {
        inst.put_type(alloc, entry.name, entry.number, entry.typ)?;
    }
    Ok(inst)
}

/// A most general unifier of the two types; `None` where they have none.
#[tactic(auto, using(crate::proofs::TypeAnswers::type_unifier, crate::proofs::TypeAnswers::no_type_unifier))]
pub fn unify_types(alloc: Global, left: &Typ, right: &Typ) -> Result<Option<Inst>, AllocError>
    ensures found { IfOk result (λ found. IfSome found (λ inst. IsTypeUnifier left.now right.now inst)) }
    ensures none { IfOk result (λ found. IfNone found ((r : List TypeEntry) → inst_ty r left.now ≡ inst_ty r right.now → ⊥)) }
{
    let mut work = Vec::new(alloc);
    work.push(TypePair {
        left: left.copy()?,
        right: right.copy()?,
    })?;
    match unified_pairs(alloc, work)? {
        None => Ok(None),
        Some(entries) => Ok(Some(instance_of_types(alloc, entries)?)),
    }
}
