//! What a line adds to the table.
ghost use Rattle.std.specs.Prelude.{◌≡◌, IfOk};
ghost use Rattle.isa_terms.specs.Layers.{typ_of};
ghost use Rattle.isa_terms.specs.TermLayers.{term_of};
ghost use Rattle.isa_kernel.specs.Theories.{constant_type, any_type, arity_of};
ghost use Rattle.isa_cert.specs.declared.line.Line.TheVariants.{TermConst, TermFree, TermUnknown, TermAbs, TermApp, Axiom, Step};
ghost use Rattle.isa_cert.specs.declared.line.Line.TheVariants as lines;
ghost use Rattle.isa_cert.specs.Checking.{taken, all_at, with_type, with_term, with_constant, with_constructed, read_line, is_end};
ghost use Rattle.isa_cert.specs.Answers.{Reads, Becomes, BecomesWith};

use crate::fail::LineFail;
use crate::forms::read_line;
use crate::inferring::infer;
use crate::line::{Line, Rule};
use crate::numbers::Numbers;
use crate::table::{End, Table};
use crate::words::Words;
use isa_kernel::{TheoryFail, axiom};
use isa_terms::{Name, Term, TermNode, Typ, TypNode, Typs};
use std::alloc::{AllocError, Global};

/// The types of these numbers.
fn types_at(alloc: Global, table: &Table, numbers: &Numbers) -> Result<Typs, LineFail>
    ensures { Reads result (all_at table.now.types numbers.now) }
{
    let mut all = Typs::new(alloc);
    for number in numbers.as_slice() {
        all.push(table.typ(*number)?.copy()?)?;
    }
    Ok(all)
}

/// Puts a type last.
fn put_type(alloc: Global, table: &mut Table, node: TypNode) -> Result<(), LineFail>
    ensures { Becomes result table.new (Ok (with_type table.old (typ_of node))) }
{
    table.types.push(Typ::new(alloc, node)?)?;
    Ok(())
}

/// Puts a term last.
fn put_term(alloc: Global, table: &mut Table, node: TermNode) -> Result<(), LineFail>
    ensures { Becomes result table.new (Ok (with_term table.old (term_of node))) }
{
    table.terms.push(Term::new(alloc, node)?)?;
    Ok(())
}

/// Declares a type constructor, where it is new.
fn take_constructor(
    alloc: Global,
    table: &mut Table,
    name: Name,
    args: Typs,
) -> Result<(), LineFail>
    ensures { Becomes result table.new
        (with_constructed table.old name args (arity_of table.old.declared name)) }
{
    // No list in memory is so long.
    let Ok(count) = u32::try_from(args.len()) else {
        return Err(LineFail::Memory);
    };
    match table.declared.arity(&name) {
        None => {
            if let Err(_) = table.declared.declare_type(alloc, &name, count) {
                return Err(LineFail::Memory);
            }
        }
        Some(arity) => {
            if arity != count {
                return Err(LineFail::Form);
            }
        }
    }
    put_type(alloc, table, TypNode::Con(name, args))
}

/// The type unknown `?'a`.
fn any_type(alloc: Global) -> Result<Typ, AllocError>
    ensures { IfOk result (λ t. t ≡ any_type) }
{
    Typ::new(alloc, TypNode::Unknown(Name::from_text(alloc, "'a")?, 0))
}

/// Declares a constant, where it is new.
fn declare_constant(alloc: Global, table: &mut Table, name: &Name) -> Result<(), LineFail>
    ensures { Becomes result table.new
        (Ok (with_constant table.old name.now (constant_type table.old.declared name.now))) }
{
    if table.declared.constant(name).is_some() {
        return Ok(());
    }
    let typ = any_type(alloc)?;
    if let Err(_) = table.declared.declare_const(alloc, name, &typ) {
        return Err(LineFail::Memory);
    }
    Ok(())
}

/// Takes a constant.
fn take_constant(alloc: Global, table: &mut Table, name: Name, typ: u32) -> Result<(), LineFail>
    ensures { Becomes result table.new (taken table.old (TermConst name typ)) }
{
    let typ = table.typ(typ)?.copy()?;
    declare_constant(alloc, table, &name)?;
    put_term(alloc, table, TermNode::Const(name, typ))
}

/// Takes an axiom.
fn take_axiom(alloc: Global, table: &mut Table, name: &Name, prop: u32) -> Result<(), LineFail>
    ensures { Becomes result table.new (taken table.old (Axiom name.now prop)) }
{
    let prop = table.term(prop)?.copy()?;
    if table.declared.axiom_prop(name).is_some() {
        return Err(LineFail::Form);
    }
    match table.declared.add_axiom(alloc, name, &prop) {
        Ok(()) => {}
        Err(TheoryFail::Memory) => return Err(LineFail::Memory),
        Err(_) => return Err(LineFail::Typed),
    }
    match axiom(alloc, &table.declared, name) {
        Ok(th) => {
            table.axioms.push(th)?;
            Ok(())
        }
        Err(_) => Err(LineFail::Memory),
    }
}

/// Takes an end.
fn take_end(alloc: Global, table: &mut Table, step: u32, name: Name) -> Result<(), LineFail>
    ensures { Becomes result table.new (taken table.old (lines.End step name)) }
{
    let th = table.step(step)?;
    if !th.hyps().is_empty() {
        return Err(LineFail::Step);
    }
    let theorem = th.copy(alloc)?;
    table.ends.push(End { name, theorem })?;
    Ok(())
}

/// Takes a free variable.
fn take_free(alloc: Global, table: &mut Table, name: Name, typ: u32) -> Result<(), LineFail>
    ensures { Becomes result table.new (taken table.old (TermFree name typ)) }
{
    let typ = table.typ(typ)?.copy()?;
    put_term(alloc, table, TermNode::Free(name, typ))
}

/// Takes an unknown.
fn take_unknown(
    alloc: Global,
    table: &mut Table,
    name: Name,
    number: u32,
    typ: u32,
) -> Result<(), LineFail>
    ensures { Becomes result table.new (taken table.old (TermUnknown name number typ)) }
{
    let typ = table.typ(typ)?.copy()?;
    put_term(alloc, table, TermNode::Unknown(name, number, typ))
}

/// Takes an abstraction.
fn take_abstraction(
    alloc: Global,
    table: &mut Table,
    name: Name,
    typ: u32,
    body: u32,
) -> Result<(), LineFail>
    ensures { Becomes result table.new (taken table.old (TermAbs name typ body)) }
{
    let typ = table.typ(typ)?.copy()?;
    let body = table.term(body)?.copy()?;
    put_term(alloc, table, TermNode::Abs(name, typ, body))
}

/// Takes an application.
fn take_application(alloc: Global, table: &mut Table, fun: u32, arg: u32) -> Result<(), LineFail>
    ensures { Becomes result table.new (taken table.old (TermApp fun arg)) }
{
    let fun = table.term(fun)?.copy()?;
    let arg = table.term(arg)?.copy()?;
    put_term(alloc, table, TermNode::App(fun, arg))
}

/// Takes a step.
fn take_step(alloc: Global, table: &mut Table, rule: &Rule) -> Result<(), LineFail>
    ensures { Becomes result table.new (taken table.old (Step rule.now)) }
{
    let th = infer(alloc, table, rule)?;
    table.steps.push(th)?;
    Ok(())
}

/// Takes a line.
fn take(alloc: Global, table: &mut Table, line: Line) -> Result<(), LineFail>
    ensures { Becomes result table.new (taken table.old line) }
{
    match line {
        Line::TypeCon(name, numbers) => {
            let args = types_at(alloc, table, &numbers)?;
            take_constructor(alloc, table, name, args)
        }
        Line::TypeFixed(name) => put_type(alloc, table, TypNode::Fixed(name)),
        Line::TypeUnknown(name, number) => put_type(alloc, table, TypNode::Unknown(name, number)),
        Line::TermConst(name, typ) => take_constant(alloc, table, name, typ),
        Line::TermFree(name, typ) => take_free(alloc, table, name, typ),
        Line::TermUnknown { name, number, typ } => take_unknown(alloc, table, name, number, typ),
        Line::TermBound(number) => put_term(alloc, table, TermNode::Bound(number)),
        Line::TermAbs { name, typ, body } => take_abstraction(alloc, table, name, typ, body),
        Line::TermApp { fun, arg } => take_application(alloc, table, fun, arg),
        Line::Axiom(name, prop) => take_axiom(alloc, table, &name, prop),
        Line::Step(rule) => take_step(alloc, table, &rule),
        Line::End { step, name } => take_end(alloc, table, step, name),
    }
}

/// Whether the line is an end.
fn is_end(line: &Line) -> bool
    ensures { result ≡ is_end line.now }
{
    match line {
        Line::End { .. } => true,
        _ => false,
    }
}

/// Reads and takes a line, and tells whether it is an end.
pub(crate) fn take_text(alloc: Global, table: &mut Table, text: &[u8]) -> Result<bool, LineFail>
    ensures { BecomesWith result table.new (read_line table.old text.now) }
{
    let mut words = Words::of(text);
    let line = read_line(alloc, &mut words)?;
    let ended = is_end(&line);
    take(alloc, table, line)?;
    Ok(ended)
}
