//! Terms that were read, and how they are made of their parts.
ghost use Rattle.std.specs.Prelude.{◌≡◌, ◌≤◌, ◌<◌, ◌+◌, ◌^◌, length, IfOk};
ghost use Rattle.isa_inner.specs.Priorities.{operators};
ghost use Rattle.isa_raw.specs.RawLayers.{raw_of};
ghost use Rattle.isa_raw.specs.RawTerms.{RawApp};
ghost use Rattle.isa_inner_text.specs.Parts.{prop, closed, parenthesised, applied, annotated, joined, prefixed, bound, bracketed, judged, between, infix_constant, prefix_term, binder_term, under, implied, is_pure_infix, is_pure_prefix, is_pure_binder};

use crate::signature::{Signature, constant};
use isa_inner::{BinderSign, InfixSign, PrefixSign};
use isa_raw::{RawNode, RawTerm};
use isa_terms::{Name, Typ, TypNode, Typs};
use std::alloc::{AllocError, Global};

/// A term that was read.
#[derive(Drop)]
pub struct Part {
    pub term: RawTerm,
    /// Its own priority.
    pub priority: u64,
    /// How much deeper than the term itself its deepest place is.
    pub height: u64,
    /// Whether it may have arguments.
    pub is_function: bool,
    /// Whether it stands as a proposition without the judgment.
    pub is_proposition: bool,
}

/// A variable of a binder, with its type where it is given.
#[derive(Drop)]
pub struct Variable {
    pub name: Name,
    pub typ: Option<Typ>,
}

/// A name or an unknown.
pub(crate) fn closed(alloc: Global, node: RawNode) -> Result<Part, AllocError>
    ensures { IfOk result (λ p. p ≡ closed (raw_of node)) }
{
    Ok(Part {
        term: RawTerm::new(alloc, node)?,
        priority: 1000,
        height: 0,
        is_function: true,
        is_proposition: false,
    })
}

/// The term in parentheses.
pub(crate) fn parenthesised(part: Part) -> Part
    requires { part.height + 1 < 2 ^ 64 }
    ensures { result ≡ parenthesised part }
{
    Part {
        term: part.term,
        priority: 1000,
        height: part.height + 1,
        is_function: true,
        is_proposition: part.is_proposition,
    }
}

/// The function with one more argument.
pub(crate) fn applied(alloc: Global, function: Part, argument: Part) -> Result<Part, AllocError>
    ensures { IfOk result (λ p. p ≡ applied function argument) }
{
    Ok(Part {
        term: application(alloc, function.term, argument.term)?,
        priority: 999,
        height: function.height.max(argument.height),
        is_function: true,
        is_proposition: false,
    })
}

/// The application of a term to another.
fn application(alloc: Global, function: RawTerm, argument: RawTerm) -> Result<RawTerm, AllocError>
    ensures { IfOk result (λ t. t ≡ RawApp function argument) }
{
    RawTerm::new(alloc, RawNode::App(function, argument))
}

/// The term with its type, which has this height.
pub(crate) fn annotated(
    alloc: Global,
    part: Part,
    typ: Typ,
    height: u64,
) -> Result<Part, AllocError>
    requires { (part.height + 1 < 2 ^ 64) × (height + 1 < 2 ^ 64) }
    ensures { IfOk result (λ p. p ≡ annotated part typ height) }
{
    Ok(Part {
        term: RawTerm::new(alloc, RawNode::Typed(part.term, typ))?,
        priority: 3,
        height: part.height.max(height) + 1,
        is_function: false,
        is_proposition: false,
    })
}

/// The constant of an operator between two operands.
fn infix_constant(alloc: Global, sig: &Signature, sign: InfixSign) -> Result<Name, AllocError>
    ensures { IfOk result (λ name. name ≡ infix_constant sig.now sign) }
{
    match sign {
        InfixSign::Implies => Name::from_text(alloc, "Pure.imp"),
        InfixSign::Equals => Name::from_text(alloc, "Pure.eq"),
        InfixSign::Declared(number, _, _) => constant(alloc, sig, number),
    }
}

/// Whether the operator makes a proposition.
fn is_pure_infix(sign: InfixSign) -> bool
    ensures { result ≡ is_pure_infix sign }
{
    match sign {
        InfixSign::Implies => true,
        InfixSign::Equals => true,
        InfixSign::Declared(_, _, _) => false,
    }
}

/// The operator's constant applied to its operands.
fn between(
    alloc: Global,
    sig: &Signature,
    sign: InfixSign,
    left: RawTerm,
    right: RawTerm,
) -> Result<RawTerm, AllocError>
    ensures { IfOk result (λ t. t ≡ between sig.now sign left right) }
{
    let constant = RawTerm::new(alloc, RawNode::Constant(infix_constant(alloc, sig, sign)?))?;
    let function = application(alloc, constant, left)?;
    application(alloc, function, right)
}

/// The operands with an operator between them.
pub(crate) fn joined(
    alloc: Global,
    sig: &Signature,
    sign: InfixSign,
    left: Part,
    right: Part,
) -> Result<Part, AllocError>
    requires { (left.height + 1 < 2 ^ 64) × (right.height + 1 < 2 ^ 64) }
    ensures { IfOk result (λ p. p ≡ joined sig.now sign left right) }
{
    Ok(Part {
        term: between(alloc, sig, sign, left.term, right.term)?,
        priority: sign.own(),
        height: left.height.max(right.height) + 1,
        is_function: false,
        is_proposition: is_pure_infix(sign),
    })
}

/// The type of propositions.
fn prop(alloc: Global) -> Result<Typ, AllocError>
    ensures { IfOk result (λ T. T ≡ prop) }
{
    Typ::new(
        alloc,
        TypNode::Con(Name::from_text(alloc, "prop")?, Typs::new(alloc)),
    )
}

/// What an operator in front of its operand makes of it.
fn prefix_term(
    alloc: Global,
    sig: &Signature,
    sign: PrefixSign,
    operand: RawTerm,
) -> Result<RawTerm, AllocError>
    ensures { IfOk result (λ t. t ≡ prefix_term sig.now sign operand) }
{
    match sign {
        PrefixSign::Prop => {
            let typ = prop(alloc)?;
            RawTerm::new(alloc, RawNode::Typed(operand, typ))
        }
        PrefixSign::Declared(number, _) => {
            let name = constant(alloc, sig, number)?;
            let constant = RawTerm::new(alloc, RawNode::Constant(name))?;
            application(alloc, constant, operand)
        }
    }
}

/// Whether the operator makes a proposition.
fn is_pure_prefix(sign: PrefixSign) -> bool
    ensures { result ≡ is_pure_prefix sign }
{
    match sign {
        PrefixSign::Prop => true,
        PrefixSign::Declared(_, _) => false,
    }
}

/// The operand with an operator in front.
pub(crate) fn prefixed(
    alloc: Global,
    sig: &Signature,
    sign: PrefixSign,
    operand: Part,
) -> Result<Part, AllocError>
    requires { operand.height + 1 < 2 ^ 64 }
    ensures { IfOk result (λ p. p ≡ prefixed sig.now sign operand) }
{
    Ok(Part {
        term: prefix_term(alloc, sig, sign, operand.term)?,
        priority: sign.own(),
        height: operand.height + 1,
        is_function: false,
        is_proposition: is_pure_prefix(sign),
    })
}

/// The binder's constant, where it has one, applied to an abstraction.
fn binder_term(
    alloc: Global,
    sig: &Signature,
    sign: BinderSign,
    abstraction: RawTerm,
) -> Result<RawTerm, AllocError>
    ensures { IfOk result (λ t. t ≡ binder_term sig.now sign abstraction) }
{
    match sign {
        BinderSign::Every => {
            let name = Name::from_text(alloc, "Pure.all")?;
            let constant = RawTerm::new(alloc, RawNode::Constant(name))?;
            application(alloc, constant, abstraction)
        }
        BinderSign::Lambda => Ok(abstraction),
        BinderSign::Declared(number, _) => {
            let name = constant(alloc, sig, number)?;
            let constant = RawTerm::new(alloc, RawNode::Constant(name))?;
            application(alloc, constant, abstraction)
        }
    }
}

/// Whether the binder makes a proposition.
fn is_pure_binder(sign: BinderSign) -> bool
    ensures { result ≡ is_pure_binder sign }
{
    match sign {
        BinderSign::Every => true,
        BinderSign::Lambda => false,
        BinderSign::Declared(_, _) => false,
    }
}

/// The body under each of the variables, the last one innermost.
fn under(
    alloc: Global,
    sig: &Signature,
    sign: BinderSign,
    variables: Vec<Variable>,
    body: RawTerm,
) -> Result<RawTerm, AllocError>
    ensures { IfOk result (λ t. t ≡ under sig.now sign variables.items body) }
{
    let mut variables = variables;
    let mut term = body;
    while let Some(variable) = variables.pop() {
        let abstraction = RawTerm::new(alloc, RawNode::Abs(variable.name, variable.typ, term))?;
        term = binder_term(alloc, sig, sign, abstraction)?;
    }
    Ok(term)
}

/// The body under its variables, whose types have this height.
pub(crate) fn bound(
    alloc: Global,
    sig: &Signature,
    sign: BinderSign,
    variables: Vec<Variable>,
    height: u64,
    body: Part,
) -> Result<Part, AllocError>
    requires { body.height + (operators sign + length variables.items) < 2 ^ 64 }
    ensures { IfOk result (λ p. p ≡ bound sig.now sign variables.items height body) }
{
    let binders = sign.operators() + variables.len() as u64;
    Ok(Part {
        term: under(alloc, sig, sign, variables, body.term)?,
        priority: sign.own(),
        height: height.max(body.height + binders),
        is_function: false,
        is_proposition: is_pure_binder(sign),
    })
}

/// The premises in order, and what they imply.
fn implied(
    alloc: Global,
    sig: &Signature,
    premises: Vec<RawTerm>,
    conclusion: RawTerm,
) -> Result<RawTerm, AllocError>
    ensures { IfOk result (λ t. t ≡ implied sig.now premises.items conclusion) }
{
    let mut premises = premises;
    let mut term = conclusion;
    while let Some(premise) = premises.pop() {
        term = between(alloc, sig, InfixSign::Implies, premise, term)?;
    }
    Ok(term)
}

/// What premises in brackets imply; the premises have this height.
pub(crate) fn bracketed(
    alloc: Global,
    sig: &Signature,
    premises: Vec<RawTerm>,
    height: u64,
    conclusion: Part,
) -> Result<Part, AllocError>
    requires { conclusion.height + 1 < 2 ^ 64 }
    ensures { IfOk result (λ p. p ≡ bracketed sig.now premises.items height conclusion) }
{
    Ok(Part {
        term: implied(alloc, sig, premises, conclusion.term)?,
        priority: 1,
        height: height.max(conclusion.height + 1),
        is_function: false,
        is_proposition: true,
    })
}

/// The term with the judgment in front.
pub(crate) fn judged(alloc: Global, judgment: &Name, part: Part) -> Result<Part, AllocError>
    ensures { IfOk result (λ p. p ≡ judged judgment.now part) }
{
    let constant = RawTerm::new(alloc, RawNode::Constant(judgment.copy()?))?;
    Ok(Part {
        term: application(alloc, constant, part.term)?,
        priority: part.priority,
        height: part.height,
        is_function: part.is_function,
        is_proposition: true,
    })
}
