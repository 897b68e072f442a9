//! How long operations on terms take, and how much memory. It prints the size of what they give.
//!
//! - `isa_terms_bench norm N`: the normal form of a normal term of about N nodes.
//! - `isa_terms_bench church B E`: the normal form of the Church numeral E applied to B, the numeral of B to the E.
//! - `isa_terms_bench instantiate N`: a term of about N nodes, all leaves of which are one unknown, under an instance for it.
#![tactic(auto)]

use isa_terms::{
    Inst, Name, Term, TermNode, Typ, TypNode, Typs, function_type, instantiate, norm, size,
};
use std::alloc::{AllocError, Global};
use std::{env, io};

/// The base type.
fn base(alloc: Global) -> Result<Typ, AllocError> {
    let name = Name::from_text(alloc, "i")?;
    Typ::new(alloc, TypNode::Con(name, Typs::new(alloc)))
}

/// The type of functions from the type to itself.
fn steps_of(alloc: Global, typ: &Typ) -> Result<Typ, AllocError> {
    function_type(alloc, typ.copy()?, typ.copy()?)
}

/// A constant that makes one term of two.
fn pair(alloc: Global) -> Result<Term, AllocError> {
    let typ = function_type(alloc, base(alloc)?, steps_of(alloc, &base(alloc)?)?)?;
    Term::new(alloc, TermNode::Const(Name::from_text(alloc, "pair")?, typ))
}

/// A balanced tree of so many leaves.
fn tree(alloc: Global, pair: &Term, leaf: &Term, leaves: u64) -> Result<Term, AllocError> {
    if leaves <= 1 {
        return leaf.copy();
    }
    let half = leaves / 2;
    let left = tree(alloc, pair, leaf, half)?;
    let right = tree(alloc, pair, leaf, leaves - half)?;
    let fun = Term::new(alloc, TermNode::App(pair.copy()?, left))?;
    Term::new(alloc, TermNode::App(fun, right))
}

/// The normal form of a tree of about so many nodes.
fn norm_of_tree(alloc: Global, nodes: u64) -> Result<Term, AllocError> {
    let name = Name::from_text(alloc, "a")?;
    let leaf = Term::new(alloc, TermNode::Free(name, base(alloc)?))?;
    norm(alloc, &tree(alloc, &pair(alloc)?, &leaf, nodes / 2)?)
}

/// An instance of a tree of about so many nodes.
fn instance_of_tree(alloc: Global, nodes: u64) -> Result<Term, AllocError> {
    let name = Name::from_text(alloc, "x")?;
    let typ = base(alloc)?;
    let leaf = Term::new(alloc, TermNode::Unknown(name.copy()?, 0, typ.copy()?))?;
    let term = tree(alloc, &pair(alloc)?, &leaf, nodes / 2)?;
    let a = Term::new(
        alloc,
        TermNode::Free(Name::from_text(alloc, "a")?, typ.copy()?),
    )?;
    let mut instance = Inst::new(alloc);
    instance.put_term(alloc, name, 0, typ, a)?;
    instantiate(alloc, &instance, &term)
}

/// Under two binders, the outer one's variable applied to the inner one's so many times.
fn iterated(alloc: Global, times: u64) -> Result<Term, AllocError> {
    if times == 0 {
        return Term::new(alloc, TermNode::Bound(0));
    }
    let behind = iterated(alloc, times - 1)?;
    let step = Term::new(alloc, TermNode::Bound(1))?;
    Term::new(alloc, TermNode::App(step, behind))
}

/// The Church numeral of a number, over a type.
fn numeral(alloc: Global, typ: &Typ, number: u64) -> Result<Term, AllocError> {
    let x = Name::from_text(alloc, "x")?;
    let body = iterated(alloc, number)?;
    let inner = Term::new(alloc, TermNode::Abs(x, typ.copy()?, body))?;
    let f = Name::from_text(alloc, "f")?;
    Term::new(alloc, TermNode::Abs(f, steps_of(alloc, typ)?, inner))
}

/// The numeral of a power.
fn power(alloc: Global, number: u64, exponent: u64) -> Result<Term, AllocError> {
    let typ = base(alloc)?;
    let number = numeral(alloc, &typ, number)?;
    let exponent = numeral(alloc, &steps_of(alloc, &typ)?, exponent)?;
    norm(alloc, &Term::new(alloc, TermNode::App(exponent, number))?)
}

/// The size of what an operation of this kind gives.
fn found(alloc: Global, kind: &str, first: u64, second: u64) -> Result<u64, AllocError> {
    let term = if kind == "church" {
        power(alloc, first, second)?
    } else if kind == "instantiate" {
        instance_of_tree(alloc, first)?
    } else {
        norm_of_tree(alloc, first)?
    };
    Ok(size(&term))
}

/// The number that a word is, and 0 where it is none.
fn number(word: Option<String>) -> u64 {
    match word {
        Some(word) => word.as_str().parse::<u64>().unwrap_or(0),
        None => 0,
    }
}

fn main(rt: HostRuntime) -> io::Result<()> {
    let alloc = rt.alloc();
    let mut words = env::args(&rt)?;
    let _program = words.next();
    let kind = words.next().unwrap_or(String::new(alloc));
    let first = number(words.next());
    let second = number(words.next());
    let size = found(alloc, kind.as_str(), first, second)?;
    println!(rt; "{kind}: size {size}")
}
