// How long unification takes, and how much memory: `isa_unify_bench KIND SIZE`, KIND being one of
// `walk` (two terms of about so many nodes, built apart, without unknowns), `chain` (so many unknowns, each under one
// more application), `types` (so many type unknowns, each a list of the next) and `prunings` (an unknown on one of two
// variables against so many unknowns on both, each of which loses one).
// `walk 100000` took 0.3 s of one processor and 35 MB, `chain 1000` and `types 1000` 0.15 s and 13 MB each; four times as
// many unknowns take about sixteen times as long, and the same memory.
#![tactic(auto)]

use isa_terms::{Name, Term, TermNode, Terms, Typ, TypNode, Typs, function_type};
use isa_unify::{Fresh, TypePair, Unified, unify, unify_type_pairs};
use std::alloc::{AllocError, Global};
use std::{env, io};

/// The type of all leaves.
fn base(alloc: Global) -> Result<Typ, AllocError> {
    Typ::new(
        alloc,
        TypNode::Con(Name::from_text(alloc, "i")?, Typs::new(alloc)),
    )
}

/// The type of the functions of two leaves.
fn binary(alloc: Global) -> Result<Typ, AllocError> {
    let unary = function_type(alloc, base(alloc)?, base(alloc)?)?;
    function_type(alloc, base(alloc)?, unary)
}

fn constant(alloc: Global, name: &str, typ: &Typ) -> Result<Term, AllocError> {
    Term::new(
        alloc,
        TermNode::Const(Name::from_text(alloc, name)?, typ.copy()?),
    )
}

/// The constant `f` on two terms.
fn pair(alloc: Global, typ: &Typ, left: Term, right: Term) -> Result<Term, AllocError> {
    let fun = constant(alloc, "f", typ)?;
    let half = Term::new(alloc, TermNode::App(fun, left))?;
    Term::new(alloc, TermNode::App(half, right))
}

/// A term of about so many nodes, no two of them shared.
fn tree(alloc: Global, size: u64, binary: &Typ, base: &Typ) -> Result<Term, AllocError> {
    if size < 4 {
        return constant(alloc, "c", base);
    }
    let left = tree(alloc, size / 2, binary, base)?;
    let right = tree(alloc, size / 2, binary, base)?;
    pair(alloc, binary, left, right)
}

/// The unknown of that number, or the constant `c`.
fn item(alloc: Global, known: bool, number: u32, base: &Typ) -> Result<Term, AllocError> {
    if known {
        constant(alloc, "c", base)
    } else {
        Term::new(
            alloc,
            TermNode::Unknown(Name::from_text(alloc, "x")?, number, base.copy()?),
        )
    }
}

/// So many items, each under one more application.
fn chain(alloc: Global, known: bool, length: u32) -> Result<Term, AllocError> {
    let base = base(alloc)?;
    let binary = binary(alloc)?;
    let mut t = constant(alloc, "c", &base)?;
    for number in 0..length {
        let item = item(alloc, known, number, &base)?;
        t = pair(alloc, &binary, item, t)?;
    }
    Ok(t)
}

/// The unknown of that name and number.
fn unknown(alloc: Global, name: &str, number: u32, typ: &Typ) -> Result<Term, AllocError> {
    Term::new(
        alloc,
        TermNode::Unknown(Name::from_text(alloc, name)?, number, typ.copy()?),
    )
}

/// The term on a variable of the binders round it.
fn on_variable(alloc: Global, fun: Term, variable: u32) -> Result<Term, AllocError> {
    let argument = Term::new(alloc, TermNode::Bound(variable))?;
    Term::new(alloc, TermNode::App(fun, argument))
}

/// The term under binders of two variables.
fn under_two(alloc: Global, base: &Typ, body: Term) -> Result<Term, AllocError> {
    let inner = Term::new(
        alloc,
        TermNode::Abs(Name::from_text(alloc, "z")?, base.copy()?, body),
    )?;
    Term::new(
        alloc,
        TermNode::Abs(Name::from_text(alloc, "x")?, base.copy()?, inner),
    )
}

/// An unknown on the first of two variables, under their binders.
fn on_first(alloc: Global) -> Result<Term, AllocError> {
    let base = base(alloc)?;
    let unary = function_type(alloc, base.copy()?, base.copy()?)?;
    let body = on_variable(alloc, unknown(alloc, "F", 0, &unary)?, 1)?;
    under_two(alloc, &base, body)
}

/// So many unknowns on two variables, under their binders, each under one more application.
fn on_both(alloc: Global, length: u32) -> Result<Term, AllocError> {
    let base = base(alloc)?;
    let binary = binary(alloc)?;
    let mut t = constant(alloc, "c", &base)?;
    for number in 0..length {
        let first = on_variable(alloc, unknown(alloc, "x", number, &binary)?, 1)?;
        let item = on_variable(alloc, first, 0)?;
        t = pair(alloc, &binary, item, t)?;
    }
    under_two(alloc, &base, t)
}

/// The type unknown of that number.
fn type_unknown(alloc: Global, number: u32) -> Result<Typ, AllocError> {
    Typ::new(
        alloc,
        TypNode::Unknown(Name::from_text(alloc, "a")?, number),
    )
}

/// So many type unknowns, each as a list of the next.
fn type_pairs(alloc: Global, length: u32) -> Result<Vec<TypePair>, AllocError> {
    let mut pairs = Vec::new(alloc);
    for number in 0..length {
        let mut args = Typs::new(alloc);
        args.push(type_unknown(alloc, number.saturating_add(1))?)?;
        pairs.push(TypePair {
            left: type_unknown(alloc, number)?,
            right: Typ::new(alloc, TypNode::Con(Name::from_text(alloc, "list")?, args))?,
        })?;
    }
    Ok(pairs)
}

/// What unification answers on two terms, as text.
fn answer(alloc: Global, left: &Term, right: &Term) -> Result<String, AllocError> {
    let mut fresh = Fresh::after(&Terms::new(alloc));
    fresh.set(1_000_000);
    match unify(alloc, left, right, &mut fresh)? {
        Unified::Yes(inst) => {
            let count = inst.terms().len();
            format!(in alloc; "yes, {count} terms")
        }
        Unified::No => String::from_str(alloc, "no"),
        Unified::Outside => String::from_str(alloc, "outside"),
    }
}

/// What unification answers on types, as text.
fn type_answer(alloc: Global, pairs: Vec<TypePair>) -> Result<String, AllocError> {
    match unify_type_pairs(alloc, pairs)? {
        Some(entries) => {
            let count = entries.len();
            format!(in alloc; "yes, {count} types")
        }
        None => String::from_str(alloc, "no"),
    }
}

/// The answer of that kind and size, as text.
fn run(alloc: Global, kind: &str, size: u32) -> Result<String, AllocError> {
    if kind == "types" {
        return type_answer(alloc, type_pairs(alloc, size)?);
    }
    if kind == "chain" {
        return answer(
            alloc,
            &chain(alloc, false, size)?,
            &chain(alloc, true, size)?,
        );
    }
    if kind == "prunings" {
        return answer(alloc, &on_first(alloc)?, &on_both(alloc, size)?);
    }
    let base = base(alloc)?;
    let binary = binary(alloc)?;
    let left = tree(alloc, u64::from(size), &binary, &base)?;
    let right = tree(alloc, u64::from(size), &binary, &base)?;
    answer(alloc, &left, &right)
}

fn main(rt: HostRuntime) -> io::Result<()> {
    let alloc = rt.alloc();
    let mut words = env::args(&rt)?;
    let _program = words.next();
    let kind = words.next().unwrap_or(String::new(alloc));
    let size = match words.next() {
        Some(word) => word.as_str().parse::<u32>().unwrap_or(0),
        None => 0,
    };
    let text = run(alloc, kind.as_str(), size)?;
    println!(rt; "{kind} {size}: {text}")
}
