//! Rules whose unknowns have other numbers.
ghost use Rattle.std.specs.Prelude.{◌≡◌, ◌+◌, ◌++◌, IfOk};
ghost use Rattle.isa_terms.specs.Types.{tys_of, list_of};
ghost use Rattle.isa_kernel.specs.Inferences.{Answers};
ghost use Rattle.isa_subgoal.specs.Renumbering.{renumbered_type, renumbered_types, renumbered, renumbered_rule, IsBareRule, Renumbers};
ghost use Rattle.isa_subgoal.specs.Private.Renumbering.{type_numbers, all_type_numbers, numbers_in_types, numbers_in, renumbered_by};

use isa_kernel::{InferenceError, Thm, instantiate_thm, rename};
use isa_terms::{Inst, Term, TermNode, Typ, TypNode, Typs};
use std::alloc::{AllocError, Global};

/// The number, raised by that much.
fn higher(number: u32, by: u32) -> Result<u32, AllocError>
    ensures { IfOk result (λ n. n ≡ number + by) }
{
    number.checked_add(by).ok_or(AllocError)
}

/// The type with the numbers of its type unknowns raised.
#[cycle(renumbered_type)]
#[tactic(auto, using(isa_terms::proofs::Types::tys_of_list))]
fn renumbered_type(alloc: Global, by: u32, typ: &Typ) -> Result<Typ, AllocError>
    ensures { IfOk result (λ r. r ≡ renumbered_type by typ.now) }
{
    match typ.view() {
        TypNode::Con(name, args) => {
            let args = renumbered_types(alloc, by, args.as_slice(), Typs::new(alloc))?;
            Typ::new(alloc, TypNode::Con(name.copy()?, args))
        }
        TypNode::Fixed(_) => typ.copy(),
        TypNode::Unknown(name, number) => {
            Typ::new(alloc, TypNode::Unknown(name.copy()?, higher(*number, by)?))
        }
    }
}

#[cycle(renumbered_type)]
fn renumbered_types(
    alloc: Global,
    by: u32,
    args: &[Typ],
    mut done: Typs,
) -> Result<Typs, AllocError>
    ensures { IfOk result (λ r. r ≡ done ++ list_of (renumbered_types by (tys_of args.now))) }
{
    match args.split_first() {
        None => Ok(done),
        Some((first, rest)) => {
            done.push(renumbered_type(alloc, by, first)?)?;
            renumbered_types(alloc, by, rest, done)
        }
    }
}

/// The term with the numbers of its unknowns and type unknowns raised.
fn renumbered(alloc: Global, by: u32, t: &Term) -> Result<Term, AllocError>
    ensures { IfOk result (λ r. r ≡ renumbered by t.now) }
{
    let node = match t.view() {
        TermNode::Const(name, typ) => {
            TermNode::Const(name.copy()?, renumbered_type(alloc, by, typ)?)
        }
        TermNode::Free(name, typ) => TermNode::Free(name.copy()?, renumbered_type(alloc, by, typ)?),
        TermNode::Unknown(name, number, typ) => {
            let typ = renumbered_type(alloc, by, typ)?;
            TermNode::Unknown(name.copy()?, higher(*number, by)?, typ)
        }
        TermNode::Bound(_) => return t.copy(),
        TermNode::Abs(name, typ, body) => {
            let body = renumbered(alloc, by, body)?;
            TermNode::Abs(name.copy()?, renumbered_type(alloc, by, typ)?, body)
        }
        TermNode::App(fun, arg) => {
            let fun = renumbered(alloc, by, fun)?;
            TermNode::App(fun, renumbered(alloc, by, arg)?)
        }
    };
    Term::new(alloc, node)
}

/// The instance with the type unknowns of the type in it, their numbers raised.
#[cycle(put_types)]
fn put_types(alloc: Global, by: u32, typ: &Typ, mut inst: Inst) -> Result<Inst, AllocError>
    ensures { IfOk result (λ r. r ≡ record { types = type_numbers by typ.now inst.types; terms = inst.terms }) }
{
    match typ.view() {
        TypNode::Con(_, args) => put_all_types(alloc, by, args.as_slice(), inst),
        TypNode::Fixed(_) => Ok(inst),
        TypNode::Unknown(name, number) => {
            inst.put_type(
                alloc,
                name.copy()?,
                *number,
                renumbered_type(alloc, by, typ)?,
            )?;
            Ok(inst)
        }
    }
}

#[cycle(put_types)]
fn put_all_types(alloc: Global, by: u32, args: &[Typ], inst: Inst) -> Result<Inst, AllocError>
    ensures { IfOk result (λ r. r ≡ record { types = all_type_numbers by (tys_of args.now) inst.types; terms = inst.terms }) }
{
    match args.split_first() {
        None => Ok(inst),
        Some((first, rest)) => {
            let inst = put_types(alloc, by, first, inst)?;
            put_all_types(alloc, by, rest, inst)
        }
    }
}

/// The instance with the unknowns and type unknowns of the term in it, their numbers raised.
fn put_unknowns(alloc: Global, by: u32, t: &Term, inst: Inst) -> Result<Inst, AllocError>
    ensures { IfOk result (λ r. r ≡ record { types = numbers_in_types by t.now inst.types; terms = numbers_in by t.now inst.terms }) }
{
    match t.view() {
        TermNode::Const(_, typ) | TermNode::Free(_, typ) => put_types(alloc, by, typ, inst),
        TermNode::Unknown(name, number, typ) => {
            let mut inst = put_types(alloc, by, typ, inst)?;
            let term = renumbered(alloc, by, t)?;
            inst.put_term(alloc, name.copy()?, *number, typ.copy()?, term)?;
            Ok(inst)
        }
        TermNode::Bound(_) => Ok(inst),
        TermNode::Abs(_, typ, body) => {
            let inst = put_types(alloc, by, typ, inst)?;
            put_unknowns(alloc, by, body, inst)
        }
        TermNode::App(fun, arg) => {
            let inst = put_unknowns(alloc, by, fun, inst)?;
            put_unknowns(alloc, by, arg, inst)
        }
    }
}

/// The instance of the rule that raises the numbers, stated as the proposition with these numbers.
#[tactic(auto, unfolding(crate::specs::Private::Renumbering::renumbered_by))]
fn renumber_by_inferences(alloc: Global, by: u32, rule: &Thm) -> Result<Thm, InferenceError>
    ensures { Answers result (renumbered_by by rule.now) }
{
    let inst = put_unknowns(alloc, by, rule.prop(), Inst::new(alloc))?;
    let instance = instantiate_thm(alloc, &inst, rule)?;
    let wanted = renumbered(alloc, by, rule.prop())?;
    rename(alloc, &wanted, &instance)
}

/// The rule with other numbers, or a refusal.
fn renumber_checked(alloc: Global, by: u32, rule: &Thm) -> Result<Thm, InferenceError>
    ensures theorem { IfOk result (λ th. th ≡ renumbered_rule by rule.now) }
    ensures given { Renumbers by rule.now result }
{
    if rule.hyps().len() > 0 {
        return Err(InferenceError::Shape);
    }
    renumber_by_inferences(alloc, by, rule)
}

/// A rule with the numbers of its unknowns and type unknowns raised by that much. `Shape` comes exactly for a rule with
/// hypotheses, and for one not in normal form.
pub fn renumber_rule(alloc: Global, by: u32, rule: &Thm) -> Result<Thm, InferenceError>
    ensures theorem { IfOk result (λ th. th ≡ renumbered_rule by rule.now) }
    ensures given { Renumbers by rule.now result }
    ensures refused { IfOk result (λ th. IsBareRule rule.now) }
{
    if !rule.prop().is_normal() {
        return Err(InferenceError::Shape);
    }
    if rule.hyps().len() > 0 {
        return Err(InferenceError::Shape);
    }
    renumber_checked(alloc, by, rule)
}
