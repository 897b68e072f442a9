//! What a text says of types: a term over variables for types, and the equations that make it well typed.

ghost use Rattle.std.specs.Prelude.{◌≡◌, ◌+◌, ◌++◌, [], ◌∷◌, IfOk, option_map};
ghost use Rattle.std.specs.Option.{option_copied};
ghost use Rattle.isa_raw.specs.RawTerms.{raw_size};
ghost use Rattle.isa_typing.specs.Scopes.{bound_at, declared_in};
ghost use Rattle.isa_typing.specs.BinderLists.{scope_of};
ghost use Rattle.isa_terms.specs.Terms as tm;
ghost use Rattle.isa_terms.specs.Typing.{function_of};
ghost use Rattle.isa_typing.specs.Marks.{kept, node_type, unknown_type};
ghost use Rattle.isa_typing.specs.Inference.{impossible, binder_type, global_inferred, name_inferred, notation_inferred, constant_inferred, inferred};

use crate::marks::{free_type, marked_typ, node_type, unknown_type};
use indexmap::IndexMap;
use isa_raw::{RawNode, RawTerm};
use isa_terms::{Name, Term, TermNode, Typ, TypNode, Typs, function_type};
use std::alloc::{AllocError, Global};

/// The binders round a place with the types of their variables, the innermost first.
#[derive(Drop)]
pub(crate) enum Binders<'a> {
    Outermost,
    Under(&'a Name, &'a Typ, &'a Binders<'a>),
}

/// The number of the innermost bound variable of that name, with its type.
fn bound_at<'a>(name: &Name, scope: &'a Binders<'a>) -> Result<Option<(u32, &'a Typ)>, AllocError>
    ensures { IfOk result (λ r. option_map (λ p. (p.0, p.1.now)) r ≡ bound_at name.now (scope_of scope.now)) }
{
    match scope {
        Binders::Outermost => Ok(None),
        Binders::Under(other, typ, outer) => {
            if name.same(other) {
                return Ok(Some((0, typ)));
            }
            match bound_at(name, outer)? {
                None => Ok(None),
                Some((number, typ)) => { Ok(Some((number.checked_add(1).ok_or(AllocError)?, typ))) }
            }
        }
    }
}

/// The next node's number.
fn take_number(next: &mut u32) -> Result<u32, AllocError>
    ensures { IfOk result (λ number. (number ≡ next.old) × (next.new ≡ next.old + 1)) }
{
    let number = *next;
    *next = number.checked_add(1).ok_or(AllocError)?;
    Ok(number)
}

/// The constant at that node, with its type there.
fn constant(alloc: Global, node: u32, name: &Name, general: &Typ) -> Result<(Term, Typ), AllocError>
    ensures term { IfOk result (λ p. p.0 ≡ (constant_inferred node name.now general.now).term) }
    ensures typ { IfOk result (λ p. p.1 ≡ (constant_inferred node name.now general.now).typ) }
{
    let typ = marked_typ(alloc, Some(node), general)?;
    let term = Term::new(alloc, TermNode::Const(name.copy()?, typ.copy()?))?;
    Ok((term, typ))
}

/// The name at that node, which no binder binds.
fn global(
    alloc: Global,
    constants: &IndexMap<Name, Typ>,
    node: u32,
    name: &Name,
) -> Result<(Term, Typ), AllocError>
    ensures term { IfOk result (λ p. p.0 ≡ (global_inferred node name.now (declared_in constants.now.entries name.now)).term) }
    ensures typ { IfOk result (λ p. p.1 ≡ (global_inferred node name.now (declared_in constants.now.entries name.now)).typ) }
{
    match constants.get(name) {
        Some(general) => constant(alloc, node, name, general),
        None => {
            let typ = free_type(alloc, name)?;
            let term = Term::new(alloc, TermNode::Free(name.copy()?, typ.copy()?))?;
            Ok((term, typ))
        }
    }
}

/// An equation that nothing solves.
fn impossible(alloc: Global) -> Result<(Typ, Typ), AllocError>
    ensures { IfOk result (λ e. e ≡ impossible) }
{
    let variable = Typ::new(alloc, TypNode::Fixed(Name::new(alloc)))?;
    let constructor = Typ::new(alloc, TypNode::Con(Name::new(alloc), Typs::new(alloc)))?;
    Ok((variable, constructor))
}

/// The constant of a notation at that node.
fn notation(
    alloc: Global,
    constants: &IndexMap<Name, Typ>,
    node: u32,
    name: &Name,
    equations: &mut Vec<(Typ, Typ)>,
) -> Result<(Term, Typ), AllocError>
    ensures term { IfOk result (λ p. p.0 ≡ (notation_inferred node name.now (declared_in constants.now.entries name.now)).term) }
    ensures typ { IfOk result (λ p. p.1 ≡ (notation_inferred node name.now (declared_in constants.now.entries name.now)).typ) }
    ensures equations { IfOk result (λ p. equations.new.items ≡ equations.old.items ++ (notation_inferred node name.now (declared_in constants.now.entries name.now)).equations) }
{
    match constants.get(name) {
        Some(general) => constant(alloc, node, name, general),
        None => {
            equations.push(impossible(alloc)?)?;
            let typ = node_type(alloc, node)?;
            let term = Term::new(alloc, TermNode::Const(name.copy()?, typ.copy()?))?;
            Ok((term, typ))
        }
    }
}

/// The type of a binder's variable: the given one, or the node's.
fn binder_type(alloc: Global, node: u32, given: &Option<Typ>) -> Result<Typ, AllocError>
    ensures { IfOk result (λ t. t ≡ binder_type node given.now) }
{
    match given {
        Some(typ) => marked_typ(alloc, None, typ),
        None => node_type(alloc, node),
    }
}

/// The name at that node.
fn name_at(
    alloc: Global,
    constants: &IndexMap<Name, Typ>,
    scope: &Binders<'_>,
    node: u32,
    name: &Name,
) -> Result<(Term, Typ), AllocError>
    ensures term { IfOk result (λ p. p.0 ≡ (name_inferred node name.now (bound_at name.now (scope_of scope.now)) (declared_in constants.now.entries name.now)).term) }
    ensures typ { IfOk result (λ p. p.1 ≡ (name_inferred node name.now (bound_at name.now (scope_of scope.now)) (declared_in constants.now.entries name.now)).typ) }
    ensures equations { (name_inferred node name.now (bound_at name.now (scope_of scope.now)) (declared_in constants.now.entries name.now)).equations ≡ [] }
{
    match bound_at(name, scope)? {
        Some((number, typ)) => {
            let term = Term::new(alloc, TermNode::Bound(number))?;
            Ok((term, typ.copy()?))
        }
        None => global(alloc, constants, node, name),
    }
}

/// The unknown of that name, with its type.
fn unknown(alloc: Global, name: &Name) -> Result<(Term, Typ), AllocError>
    ensures term { IfOk result (λ p. p.0 ≡ tm.Unknown name.now 0 (unknown_type name.now)) }
    ensures typ { IfOk result (λ p. p.1 ≡ unknown_type name.now) }
{
    let typ = unknown_type(alloc, name)?;
    let term = Term::new(alloc, TermNode::Unknown(name.copy()?, 0, typ.copy()?))?;
    Ok((term, typ))
}

/// The given type, and the equation that the type is it.
fn annotation(
    alloc: Global,
    has: Typ,
    given: &Typ,
    equations: &mut Vec<(Typ, Typ)>,
) -> Result<Typ, AllocError>
    ensures typ { IfOk result (λ t. t ≡ kept given.now) }
    ensures equations { IfOk result (λ t. equations.new.items ≡ equations.old.items ++ (has, kept given.now) ∷ []) }
{
    let typ = marked_typ(alloc, None, given)?;
    equations.push((has, typ.copy()?))?;
    Ok(typ)
}

/// The abstraction over the name, with its type.
fn abstraction(
    alloc: Global,
    name: &Name,
    domain: Typ,
    body: Term,
    range: Typ,
) -> Result<(Term, Typ), AllocError>
    ensures term { IfOk result (λ p. p.0 ≡ tm.Abs name.now domain body) }
    ensures typ { IfOk result (λ p. p.1 ≡ function_of domain range) }
{
    let typ = function_type(alloc, domain.copy()?, range)?;
    let term = Term::new(alloc, TermNode::Abs(name.copy()?, domain, body))?;
    Ok((term, typ))
}

/// The type of the application at that node, and the equation that the function takes the argument to it.
fn application_type(
    alloc: Global,
    node: u32,
    has: Typ,
    domain: Typ,
    equations: &mut Vec<(Typ, Typ)>,
) -> Result<Typ, AllocError>
    ensures typ { IfOk result (λ t. t ≡ node_type node) }
    ensures equations { IfOk result (λ t. equations.new.items ≡ equations.old.items ++ (has, function_of domain (node_type node)) ∷ []) }
{
    let typ = node_type(alloc, node)?;
    let wanted = function_type(alloc, domain, typ.copy()?)?;
    equations.push((has, wanted))?;
    Ok(typ)
}

/// The term with variables for the types that are to be found, and its type. The equations that make it well typed are
/// put behind the others; its nodes are numbered from `next` on.
pub(crate) fn inferred(
    alloc: Global,
    constants: &IndexMap<Name, Typ>,
    scope: &Binders<'_>,
    next: &mut u32,
    raw: &RawTerm,
    equations: &mut Vec<(Typ, Typ)>,
) -> Result<(Term, Typ), AllocError>
    ensures term { IfOk result (λ p. p.0 ≡ (inferred (declared_in constants.now.entries) (scope_of scope.now) next.old raw.now).term) }
    ensures typ { IfOk result (λ p. p.1 ≡ (inferred (declared_in constants.now.entries) (scope_of scope.now) next.old raw.now).typ) }
    ensures equations { IfOk result (λ p. equations.new.items ≡ equations.old.items ++ (inferred (declared_in constants.now.entries) (scope_of scope.now) next.old raw.now).equations) }
    ensures next { IfOk result (λ p. next.new ≡ next.old + raw_size raw.now) }
{
    let node = take_number(next)?;
    match raw.view() {
        RawNode::Name(name) => name_at(alloc, constants, scope, node, name),
        RawNode::Unknown(name) => unknown(alloc, name),
        RawNode::Constant(name) => notation(alloc, constants, node, name, equations),
        RawNode::Typed(body, given) => {
            let (term, has) = inferred(alloc, constants, scope, next, body, equations)?;
            let typ = annotation(alloc, has, given, equations)?;
            Ok((term, typ))
        }
        RawNode::Abs(name, given, body) => {
            let domain = binder_type(alloc, node, given)?;
            let inner = Binders::Under(name, &domain, &*scope);
            let (body, range) = inferred(alloc, constants, &inner, next, body, equations)?;
            abstraction(alloc, name, domain, body, range)
        }
        RawNode::App(fun, arg) => {
            let (fun, has) = inferred(alloc, constants, scope, next, fun, equations)?;
            let (arg, domain) = inferred(alloc, constants, scope, next, arg, equations)?;
            let typ = application_type(alloc, node, has, domain, equations)?;
            let term = Term::new(alloc, TermNode::App(fun, arg))?;
            Ok((term, typ))
        }
    }
}
