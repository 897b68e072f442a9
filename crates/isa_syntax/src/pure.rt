//! What the pure logic declares.
ghost use Rattle.std.specs.Prelude.{◌≡◌, IfOk};
ghost use Rattle.isa_kernel.specs.Theories.{any_type, pure_constants, pure_types};
ghost use Rattle.isa_inner_text.specs.Signatures.{fixed_signature};

use indexmap::IndexMap;
use isa_inner_text::Signature;
use isa_kernel::prop_type;
use isa_terms::{Name, Typ, TypNode, function_type};
use std::alloc::{AllocError, Global};

/// The signature of the pure logic: the fixed signs, and the type constructors of functions and propositions.
pub(crate) fn pure_signature(alloc: Global) -> Result<Signature, AllocError>
    ensures { IfOk result (λ sig. sig ≡ record fixed_signature { arities = pure_types }) }
{
    let mut signature = Signature::new(alloc)?;
    signature.put_arity(Name::from_text(alloc, "fun")?, 2)?;
    signature.put_arity(Name::from_text(alloc, "prop")?, 0)?;
    Ok(signature)
}

/// The type unknown `?'a`.
fn any_type(alloc: Global) -> Result<Typ, AllocError>
    ensures { IfOk result (λ t. t ≡ any_type) }
{
    Typ::new(alloc, TypNode::Unknown(Name::from_text(alloc, "'a")?, 0))
}

/// The constants of the pure logic with their general types.
pub(crate) fn pure_constants(alloc: Global) -> Result<IndexMap<Name, Typ>, AllocError>
    ensures { IfOk result (λ m. m.entries ≡ pure_constants) }
{
    let any = any_type(alloc)?;
    let predicate = function_type(alloc, any.copy()?, prop_type(alloc)?)?;
    let relation = function_type(alloc, any, predicate.copy()?)?;
    let quantifier = function_type(alloc, predicate, prop_type(alloc)?)?;
    let operator = function_type(alloc, prop_type(alloc)?, prop_type(alloc)?)?;
    let implication = function_type(alloc, prop_type(alloc)?, operator)?;
    let mut constants = IndexMap::new(alloc);
    constants.insert(Name::from_text(alloc, "Pure.imp")?, implication)?;
    constants.insert(Name::from_text(alloc, "Pure.eq")?, relation)?;
    constants.insert(Name::from_text(alloc, "Pure.all")?, quantifier)?;
    Ok(constants)
}
