//! Types that words write.

use crate::fault::Fault;
use isa_terms::{Name, Typ, TypNode, Typs, function_type};
use std::alloc::Global;

/// The constructor of that name over the arguments.
fn constructed(alloc: Global, name: &str, args: Typs) -> Result<Typ, Fault> {
    Ok(Typ::new(alloc, TypNode::Con(Name::from_text(alloc, name)?, args))?)
}

/// The type of lists of the last type.
fn list(alloc: Global, behind: &mut Vec<Typ>) -> Result<Typ, Fault> {
    let mut args = Typs::new(alloc);
    args.push(behind.pop().ok_or(Fault::Words)?)?;
    constructed(alloc, "list", args)
}

/// The function type of the last two types.
fn function(alloc: Global, behind: &mut Vec<Typ>) -> Result<Typ, Fault> {
    let domain = behind.pop().ok_or(Fault::Words)?;
    let range = behind.pop().ok_or(Fault::Words)?;
    Ok(function_type(alloc, domain, range)?)
}

/// The name of the type variable of that letter.
fn variable_name(alloc: Global, letter: u8) -> Result<Name, Fault> {
    Ok(Name::from_bytes(alloc, &[b'\'', letter.to_ascii_lowercase()])?)
}

/// The type that the letter makes of those behind it.
fn typ_of_letter(alloc: Global, letter: u8, behind: &mut Vec<Typ>) -> Result<Typ, Fault> {
    match letter {
        b'>' => function(alloc, behind),
        b'l' => list(alloc, behind),
        b'i' => constructed(alloc, "i", Typs::new(alloc)),
        b'j' => constructed(alloc, "j", Typs::new(alloc)),
        b'o' => constructed(alloc, "prop", Typs::new(alloc)),
        b'A' | b'B' | b'C' => Ok(Typ::new(alloc, TypNode::Fixed(variable_name(alloc, letter)?))?),
        b'a' | b'b' | b'c' => Ok(Typ::new(
            alloc,
            TypNode::Unknown(variable_name(alloc, letter)?, 0),
        )?),
        _ => Err(Fault::Words),
    }
}

/// The type that the letters write: `>` stands before the two types of a function type, `l` before the type of a list's
/// items, `i`, `j` and `o` are types without arguments, `A`, `B`, `C` are the type variables `'a`, `'b`, `'c`, and `a`, `b`,
/// `c` the type unknowns of these names.
pub fn typ(alloc: Global, text: &str) -> Result<Typ, Fault> {
    let mut behind = Vec::new(alloc);
    for letter in text.as_bytes().iter().rev() {
        let typ = typ_of_letter(alloc, *letter, &mut behind)?;
        if behind.push(typ).is_err() {
            return Err(Fault::Memory);
        }
    }
    behind.pop().ok_or(Fault::Words)
}
