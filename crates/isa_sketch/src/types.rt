//! Reading letters into types.
use crate::fault::Fault;
use isa_terms::{Name, Typ, TypNode, Typs, function_type};
use std::alloc::Global;

/// The type of that name without arguments.
fn plain(alloc: Global, text: &str) -> Result<Typ, Fault> {
    let node = TypNode::Con(Name::from_text(alloc, text)?, Typs::new(alloc));
    Ok(Typ::new(alloc, node)?)
}

/// The type unknown of that name and of number 0.
fn unknown(alloc: Global, text: &str) -> Result<Typ, Fault> {
    let node = TypNode::Unknown(Name::from_text(alloc, text)?, 0);
    Ok(Typ::new(alloc, node)?)
}

/// The type variable of that name.
fn fixed(alloc: Global, text: &str) -> Result<Typ, Fault> {
    Ok(Typ::new(alloc, TypNode::Fixed(Name::from_text(alloc, text)?))?)
}

/// The function type of the last two types.
fn function(alloc: Global, behind: &mut Vec<Typ>) -> Result<Typ, Fault> {
    let domain = behind.pop().ok_or(Fault::Words)?;
    let range = behind.pop().ok_or(Fault::Words)?;
    Ok(function_type(alloc, domain, range)?)
}

/// The type that the letter makes of those behind it.
fn typ_of_letter(alloc: Global, letter: u8, behind: &mut Vec<Typ>) -> Result<Typ, Fault> {
    match letter {
        b'>' => function(alloc, behind),
        b'i' => plain(alloc, "i"),
        b'j' => plain(alloc, "j"),
        b'l' => plain(alloc, "list"),
        b'o' => plain(alloc, "prop"),
        b'a' => unknown(alloc, "'a"),
        b'b' => unknown(alloc, "'b"),
        b't' => fixed(alloc, "'a"),
        _ => Err(Fault::Words),
    }
}

fn push(behind: &mut Vec<Typ>, typ: Typ) -> Result<(), Fault> {
    match behind.push(typ) {
        Ok(()) => Ok(()),
        Err(_) => Err(Fault::Memory),
    }
}

/// The type that the letters write, `>` standing before the two types of a function type: `i` and `j` are types without
/// arguments, `o` is the type of propositions, `a` and `b` are the type unknowns `'a` and `'b` of number 0, `t` is the type variable `'a`, and `l` is
/// `list` without its argument.
pub fn typ(alloc: Global, text: &str) -> Result<Typ, Fault> {
    let mut behind = Vec::new(alloc);
    for letter in text.as_bytes().iter().rev() {
        let typ = typ_of_letter(alloc, *letter, &mut behind)?;
        push(&mut behind, typ)?;
    }
    behind.pop().ok_or(Fault::Words)
}
