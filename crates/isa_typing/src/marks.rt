//! Types as inference sees them: what the text fixes stays, and variables stand for what is to be found.

ghost use Rattle.std.specs.Prelude.{◌≡◌, ◌+◌, ◌∷◌, ◌++◌, IfOk};
ghost use Rattle.isa_terms.specs.Types.{tys_of, list_of, TyUnknown};
ghost use Rattle.isa_typing.specs.Marks.{spelled, marked, marked_tys, kept_variable, unknown_mark, node_type, free_type, unknown_type};

use isa_terms::{Name, Typ, TypNode, Typs};
use std::alloc::{AllocError, Global};

/// The name behind those bytes.
fn name_behind(alloc: Global, mut bytes: Vec<u8>, name: &Name) -> Result<Name, AllocError>
    ensures { IfOk result (λ whole. whole ≡ bytes.items ++ name.now) }
{
    bytes.extend_from_slice(name.as_bytes())?;
    Name::from_bytes(alloc, bytes.as_slice())
}

/// The number and the name as one name, behind those bytes.
fn spelled(alloc: Global, mut bytes: Vec<u8>, number: u32, name: &Name) -> Result<Name, AllocError>
    ensures { IfOk result (λ whole. whole ≡ bytes.items ++ spelled number name.now) }
{
    for _i in 0..number {
        bytes.push(1)?;
    }
    bytes.push(0)?;
    name_behind(alloc, bytes, name)
}

/// A type variable of the text or of a constant's type.
pub(crate) fn kept_variable(alloc: Global, name: &Name) -> Result<Typ, AllocError>
    ensures { IfOk result (λ t. t ≡ kept_variable name.now) }
{
    let name = spelled(alloc, Vec::new(alloc), 0, name)?;
    Typ::new(alloc, TypNode::Fixed(name))
}

/// A type unknown of the text, or of the type of the constant at that node.
fn marked_unknown(
    alloc: Global,
    node: Option<u32>,
    name: &Name,
    number: u32,
) -> Result<Typ, AllocError>
    ensures { IfOk result (λ t. t ≡ unknown_mark node name.now number) }
{
    match node {
        None => {
            let past = number.checked_add(1).ok_or(AllocError)?;
            let name = spelled(alloc, Vec::new(alloc), past, name)?;
            Typ::new(alloc, TypNode::Fixed(name))
        }
        Some(node) => {
            let mut kind = Vec::new(alloc);
            kind.push(2)?;
            let name = spelled(alloc, kind, number, name)?;
            Typ::new(alloc, TypNode::Unknown(name, node))
        }
    }
}

/// A type of the text, or the declared type of the constant at that node.
#[cycle(marked)]
#[tactic(auto, using(isa_terms::proofs::Types::tys_of_list, crate::proofs::Replacing::ty_with_closed))]
pub(crate) fn marked_typ(alloc: Global, node: Option<u32>, typ: &Typ) -> Result<Typ, AllocError>
    ensures { IfOk result (λ t. t ≡ marked node typ.now) }
{
    if !typ.has_unknowns() && !typ.has_variables() {
        return typ.copy();
    }
    match typ.view() {
        TypNode::Con(name, args) => {
            let args = marked_typs(alloc, node, args.as_slice(), Typs::new(alloc))?;
            Typ::new(alloc, TypNode::Con(name.copy()?, args))
        }
        TypNode::Fixed(name) => kept_variable(alloc, name),
        TypNode::Unknown(name, number) => marked_unknown(alloc, node, name, *number),
    }
}

/// `done` with the arguments so changed behind it.
#[cycle(marked)]
fn marked_typs(
    alloc: Global,
    node: Option<u32>,
    args: &[Typ],
    mut done: Typs,
) -> Result<Typs, AllocError>
    ensures { IfOk result (λ ts. ts ≡ done ++ list_of (marked_tys node (tys_of args.now))) }
{
    match args.split_first() {
        None => Ok(done),
        Some((first, rest)) => {
            done.push(marked_typ(alloc, node, first)?)?;
            marked_typs(alloc, node, rest, done)
        }
    }
}

/// The type of a node, which is to be found.
pub(crate) fn node_type(alloc: Global, node: u32) -> Result<Typ, AllocError>
    ensures { IfOk result (λ t. t ≡ node_type node) }
{
    Typ::new(alloc, TypNode::Unknown(Name::new(alloc), node))
}

/// The type of a free variable, which is to be found.
pub(crate) fn free_type(alloc: Global, name: &Name) -> Result<Typ, AllocError>
    ensures { IfOk result (λ t. t ≡ free_type name.now) }
{
    let mut kind = Vec::new(alloc);
    kind.push(0)?;
    let name = name_behind(alloc, kind, name)?;
    Typ::new(alloc, TypNode::Unknown(name, 0))
}

/// The type of an unknown, which is to be found.
pub(crate) fn unknown_type(alloc: Global, name: &Name) -> Result<Typ, AllocError>
    ensures { IfOk result (λ t. t ≡ unknown_type name.now) }
{
    let mut kind = Vec::new(alloc);
    kind.push(1)?;
    let name = name_behind(alloc, kind, name)?;
    Typ::new(alloc, TypNode::Unknown(name, 0))
}
