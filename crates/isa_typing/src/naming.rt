//! Type variables of new names for the types that a text leaves open.

ghost use Rattle.std.specs.Prelude.{◌≡◌, ◌+◌, ◌<◌, ℕ, ◌++◌, IfOk, length, true, false};
ghost use Rattle.isa_terms.specs.Types.{tys_of, list_of};
ghost use Rattle.isa_terms.specs.Generalize.{is_named};
ghost use Rattle.isa_typing.specs.Marks.{named, numbered, of_text, thawed_name, thawed, thawed_tys, retyped};
ghost use Rattle.isa_typing.specs.NewNames.{variable_name, IsFirstFree, AreFirstFree};
ghost use Rattle.isa_typing.specs.Naming.{entries_for};

use crate::marks::kept_variable;
use isa_terms::{Name, Names, Term, TermNode, Typ, TypNode, TypeEntry, Typs};
use std::alloc::{AllocError, Global};

/// The type variable of that number: `'a`, `'b`, .. `'z`, `'a1`, `'b1`, ..
fn variable_name(alloc: Global, number: u32) -> Result<Name, AllocError>
    ensures { IfOk result (λ name. name ≡ variable_name number) }
{
    let mut bytes = Vec::new(alloc);
    bytes.push(b'\'')?;
    bytes.push(b'a' + (number % 26) as u8)?;
    let rounds = number / 26;
    if rounds != 0 {
        let digits = format!(in alloc; "{rounds}")?;
        bytes.extend_from_slice(digits.as_str().as_bytes())?;
    }
    Name::from_bytes(alloc, bytes.as_slice())
}

/// Whether the name is one of the names.
fn is_named(names: &[Name], name: &Name) -> bool
    ensures { result ≡ is_named names.now name.now }
{
    for other in names {
        if name.same(other) {
            return true;
        }
    }
    false
}

/// The number of the first type variable whose name is not taken. All before `from` are.
fn first_free(alloc: Global, taken: &[Name], from: u32) -> Result<(u32, Name), AllocError>
    requires { (k : ℕ) → k < from → is_named taken.now (variable_name k) ≡ true }
    ensures name { IfOk result (λ p. p.1 ≡ variable_name p.0) }
    ensures is_free { IfOk result (λ p. is_named taken.now p.1 ≡ false) }
    ensures is_first { IfOk result (λ p. (k : ℕ) → k < p.0 → is_named taken.now (variable_name k) ≡ true) }
{
    for number in from..u32::MAX {
        let name = variable_name(alloc, number)?;
        if !is_named(taken, &name) {
            return Ok((number, name));
        }
    }
    Err(AllocError)
}

/// So many names, each the first one that neither is taken nor was given before.
#[tactic(auto, using(crate::proofs::FirstFree::one_more_name, crate::proofs::FirstFree::still_passed))]
pub(crate) fn new_names(alloc: Global, mut taken: Names, count: usize) -> Result<Names, AllocError>
    ensures new { IfOk result (λ names. AreFirstFree taken names) }
    ensures count { IfOk result (λ names. length names ≡ count) }
{
    let mut names = Names::new(alloc);
    let mut from = 0;
    for _i in 0..count {
        let (number, name) = first_free(alloc, taken.as_slice(), from)?;
        from = number;
        taken.push(name.copy()?)?;
        names.push(name)?;
    }
    Ok(names)
}

/// Each open type with the type variable of the name at its place.
pub(crate) fn entries_for(
    alloc: Global,
    unknowns: &[Typ],
    names: &[Name],
) -> Result<Vec<TypeEntry>, AllocError>
    ensures { IfOk result (λ entries. entries.items ≡ entries_for unknowns.now names.now) }
{
    entries_behind(alloc, Vec::new(alloc), unknowns, names)
}

fn entries_behind(
    alloc: Global,
    mut done: Vec<TypeEntry>,
    unknowns: &[Typ],
    names: &[Name],
) -> Result<Vec<TypeEntry>, AllocError>
    ensures { IfOk result (λ entries. entries.items ≡ done.items ++ entries_for unknowns.now names.now) }
{
    match (unknowns.split_first(), names.split_first()) {
        (Some((typ, unknowns)), Some((name, names))) => {
            if let TypNode::Unknown(variable, number) = typ.view() {
                done.push(TypeEntry {
                    name: variable.copy()?,
                    number: *number,
                    typ: kept_variable(alloc, name)?,
                })?;
            }
            entries_behind(alloc, done, unknowns, names)
        }
        _ => Ok(done),
    }
}

/// The name that is spelled, and the number.
#[tactic(auto, using(crate::proofs::FirstFree::named_past, crate::proofs::FirstFree::numbered_past))]
fn unspelled(bytes: &[u8]) -> Result<(&[u8], u32), AllocError>
    ensures { IfOk result (λ p. (p.0.now ≡ named bytes.now) × (p.1 ≡ numbered bytes.now)) }
{
    match bytes {
        [] => Ok((bytes, 0)),
        [0, rest @ ..] => Ok((rest, 0)),
        [_, rest @ ..] => {
            let (name, number) = unspelled(rest)?;
            Ok((name, number.checked_add(1).ok_or(AllocError)?))
        }
    }
}

/// The type variable or type unknown of the text that the name stands for.
fn thawed_name(alloc: Global, name: &Name) -> Result<Typ, AllocError>
    ensures { IfOk result (λ t. t ≡ thawed_name name.now) }
{
    let (bytes, number) = unspelled(name.as_bytes())?;
    let name = Name::from_bytes(alloc, bytes)?;
    if number == 0 {
        Typ::new(alloc, TypNode::Fixed(name))
    } else {
        Typ::new(alloc, TypNode::Unknown(name, number - 1))
    }
}

/// The type as the text has it.
#[cycle(thawed)]
#[tactic(auto, using(isa_terms::proofs::Types::tys_of_list, crate::proofs::Replacing::ty_with_closed))]
fn thawed_typ(alloc: Global, typ: &Typ) -> Result<Typ, AllocError>
    ensures { IfOk result (λ t. t ≡ thawed typ.now) }
{
    if !typ.has_unknowns() && !typ.has_variables() {
        return typ.copy();
    }
    match typ.view() {
        TypNode::Con(name, args) => {
            let args = thawed_typs(alloc, args.as_slice(), Typs::new(alloc))?;
            Typ::new(alloc, TypNode::Con(name.copy()?, args))
        }
        TypNode::Fixed(name) => thawed_name(alloc, name),
        TypNode::Unknown(_, _) => typ.copy(),
    }
}

/// `done` with the arguments so changed behind it.
#[cycle(thawed)]
fn thawed_typs(alloc: Global, args: &[Typ], mut done: Typs) -> Result<Typs, AllocError>
    ensures { IfOk result (λ ts. ts ≡ done ++ list_of (thawed_tys (tys_of args.now))) }
{
    match args.split_first() {
        None => Ok(done),
        Some((first, rest)) => {
            done.push(thawed_typ(alloc, first)?)?;
            thawed_typs(alloc, rest, done)
        }
    }
}

/// The term with its types as the text has them.
pub(crate) fn thawed_term(alloc: Global, t: &Term) -> Result<Term, AllocError>
    ensures { IfOk result (λ r. r ≡ retyped thawed t.now) }
{
    let node = match t.view() {
        TermNode::Const(name, typ) => TermNode::Const(name.copy()?, thawed_typ(alloc, typ)?),
        TermNode::Free(name, typ) => TermNode::Free(name.copy()?, thawed_typ(alloc, typ)?),
        TermNode::Unknown(name, number, typ) => {
            TermNode::Unknown(name.copy()?, *number, thawed_typ(alloc, typ)?)
        }
        TermNode::Bound(number) => TermNode::Bound(*number),
        TermNode::Abs(name, typ, body) => TermNode::Abs(
            name.copy()?,
            thawed_typ(alloc, typ)?,
            thawed_term(alloc, body)?,
        ),
        TermNode::App(fun, arg) => {
            TermNode::App(thawed_term(alloc, fun)?, thawed_term(alloc, arg)?)
        }
    };
    Term::new(alloc, node)
}
