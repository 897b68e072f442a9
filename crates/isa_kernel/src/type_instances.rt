//! Whether a type is an instance of a general one.
ghost use Rattle.std.specs.Prelude.{◌≡◌, [], IfOk};
ghost use Rattle.isa_terms.specs.Types.{tys_of};
ghost use Rattle.isa_terms.specs.Instance.{find_type};
ghost use Rattle.isa_kernel.specs.TypeInstances.{bound_to, matched, all_matched, is_instance};

use isa_terms::{Name, Typ, TypNode, TypeEntries, TypeEntry, find_type, same_typ};
use std::alloc::{AllocError, Global};

/// The types found so far, where the type unknown stands for the type or for nothing yet.
fn bind(
    name: &Name,
    number: u32,
    typ: &Typ,
    mut found: TypeEntries,
) -> Result<Option<TypeEntries>, AllocError>
    ensures { IfOk result (λ r. r ≡ bound_to name.now number typ.now found (find_type name.now number found)) }
{
    if let Some(known) = find_type(name, number, found.as_slice()) {
        if same_typ(known, typ) {
            return Ok(Some(found));
        }
        return Ok(None);
    }
    found.push(TypeEntry {
        name: name.copy()?,
        number,
        typ: typ.copy()?,
    })?;
    Ok(Some(found))
}

/// The types found so far, and those for the type unknowns of the pattern that make it the type.
#[cycle(matching)]
fn match_typ(
    pattern: &Typ,
    typ: &Typ,
    found: TypeEntries,
) -> Result<Option<TypeEntries>, AllocError>
    ensures { IfOk result (λ r. r ≡ matched pattern.now typ.now found) }
{
    match pattern.view() {
        TypNode::Unknown(name, number) => bind(name, *number, typ, found),
        TypNode::Fixed(name) => match typ.view() {
            TypNode::Fixed(other) => Ok(if name.same(other) { Some(found) } else { None }),
            _ => Ok(None),
        },
        TypNode::Con(name, args) => match typ.view() {
            TypNode::Con(other, others) => {
                if name.same(other) {
                    match_typs(args.as_slice(), others.as_slice(), found)
                } else {
                    Ok(None)
                }
            }
            _ => Ok(None),
        },
    }
}

#[cycle(matching)]
fn match_typs(
    patterns: &[Typ],
    typs: &[Typ],
    found: TypeEntries,
) -> Result<Option<TypeEntries>, AllocError>
    ensures { IfOk result (λ r. r ≡ all_matched (tys_of patterns.now) (tys_of typs.now) found) }
{
    match patterns.split_first() {
        None => Ok(match typs.split_first() {
            None => Some(found),
            Some(_) => None,
        }),
        Some((pattern, patterns)) => match typs.split_first() {
            None => Ok(None),
            Some((typ, typs)) => match match_typ(pattern, typ, found)? {
                None => Ok(None),
                Some(found) => match_typs(patterns, typs, found),
            },
        },
    }
}

/// Whether the type is an instance of the general one.
pub(crate) fn is_instance(alloc: Global, general: &Typ, typ: &Typ) -> Result<bool, AllocError>
    ensures { IfOk result (λ b. b ≡ is_instance general.now typ.now) }
{
    Ok(match_typ(general, typ, TypeEntries::new(alloc))?.is_some())
}
