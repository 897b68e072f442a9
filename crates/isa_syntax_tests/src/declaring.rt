//! Declarations of a table.
use crate::fault::Fault;
use isa_outer::{Command, Constant, read_commands};
use isa_syntax::{Syntax, read_type};
use isa_terms::{Name, Names, Typ, TypNode, gen_typ};
use std::alloc::{AllocError, Global};

/// The type variables of the type, behind the names; a name may come twice.
#[cycle(variables)]
fn put_variables(names: &mut Names, typ: &Typ) -> Result<(), AllocError> {
    match typ.view() {
        TypNode::Con(_, args) => put_all_variables(names, args.as_slice()),
        TypNode::Fixed(name) => names.push(name.copy()?),
        TypNode::Unknown(_, _) => Ok(()),
    }
}

#[cycle(variables)]
fn put_all_variables(names: &mut Names, args: &[Typ]) -> Result<(), AllocError> {
    match args.split_first() {
        None => Ok(()),
        Some((first, rest)) => {
            put_variables(names, first)?;
            put_all_variables(names, rest)
        }
    }
}

/// The general type that a text tells.
fn general_type(alloc: Global, syntax: &Syntax, text: &[u8]) -> Result<Typ, Fault> {
    let typ = read_type(alloc, syntax, false, text)?;
    let mut names = Names::new(alloc);
    put_variables(&mut names, &typ)?;
    Ok(gen_typ(alloc, names.as_slice(), &typ)?)
}

/// Declares a constant with its notation, where it has one.
fn declare_constant(alloc: Global, syntax: &mut Syntax, constant: &Constant) -> Result<(), Fault> {
    let typ = general_type(alloc, syntax, constant.typ.bytes.as_slice())?;
    syntax.declare_constant(&constant.name, &typ)?;
    match &constant.notation {
        None => Ok(()),
        Some(notation) => Ok(syntax.declare_notation(&constant.name, notation)?),
    }
}

fn declare_judgment(
    alloc: Global,
    syntax: &mut Syntax,
    name: &Name,
    text: &[u8],
) -> Result<(), Fault> {
    let typ = general_type(alloc, syntax, text)?;
    syntax.declare_constant(name, &typ)?;
    Ok(syntax.declare_judgment(name)?)
}

/// Declares what a command says.
fn declare(alloc: Global, syntax: &mut Syntax, command: &Command) -> Result<(), Fault> {
    match command {
        Command::Typedecl {
            variables,
            name,
            ..
        } => Ok(syntax.declare_type(name, variables.len())?),
        Command::Judgment { name, typ, .. } => {
            declare_judgment(alloc, syntax, name, typ.bytes.as_slice())
        }
        Command::Consts { constants, .. } => {
            for constant in constants.as_slice() {
                declare_constant(alloc, syntax, constant)?;
            }
            Ok(())
        }
        _ => Err(Fault::Line),
    }
}

/// Declares all that the commands of a text say, or takes back what it did where one is refused.
pub fn declare_all(alloc: Global, syntax: &mut Syntax, text: &[u8]) -> Result<(), Fault> {
    let mark = syntax.mark();
    let commands = read_commands(alloc, text)?;
    for command in commands.as_slice() {
        if let Err(fault) = declare(alloc, syntax, command) {
            syntax.undo_to(mark);
            return Err(fault);
        }
    }
    Ok(())
}

/// A line that begins with `declare ` declares what the commands behind it say; another one does nothing.
pub fn declare_line(alloc: Global, syntax: &mut Syntax, line: &str) -> Result<(), Fault> {
    match line.strip_prefix("declare ") {
        None => Ok(()),
        Some(text) => declare_all(alloc, syntax, text.as_bytes()),
    }
}
