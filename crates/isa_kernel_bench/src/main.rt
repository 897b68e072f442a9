//! How long it takes to join what theorems rest on. It prints on how many axioms the last theorem rests.
//!
//! - `isa_kernel_bench apart N`: two theorems that rest on N axioms each, none of which is the same, are joined.
//! - `isa_kernel_bench half N`: a theorem that rests on N axioms is joined N times with one that rests on the first half of them.
#![tactic(auto)]

use isa_kernel::{Theory, Thm, axiom, make_eq, prop_type, transitive};
use isa_terms::{Name, Term, TermNode};
use std::alloc::{AllocError, Global};
use std::{env, io};

/// What comes where nothing is refused.
fn granted<T, E: Drop>(answer: Result<T, E>) -> Result<T, AllocError> {
    match answer {
        Ok(value) => Ok(value),
        Err(_) => Err(AllocError),
    }
}

/// The name of the axiom of that number.
fn name_of(alloc: Global, number: u64) -> Result<Name, AllocError> {
    let text = format!(in alloc; "axiom{number}")?;
    Name::from_text(alloc, text.as_str())
}

/// So many axioms, each `A == A`.
fn theory_of(alloc: Global, count: u64) -> Result<Theory, AllocError> {
    let mut theory = Theory::new(alloc)?;
    let typ = prop_type(alloc)?;
    let a = Term::new(
        alloc,
        TermNode::Free(Name::from_text(alloc, "A")?, typ.copy()?),
    )?;
    let same = make_eq(alloc, &typ, &a, &a)?;
    for number in 0..count {
        granted(theory.add_axiom(alloc, &name_of(alloc, number)?, &same))?;
    }
    Ok(theory)
}

/// The axiom of that number.
fn axiom_of(alloc: Global, theory: &Theory, number: u64) -> Result<Thm, AllocError> {
    granted(axiom(alloc, theory, &name_of(alloc, number)?))
}

/// A theorem that rests on the axioms from one number on, and not on those from the other on.
fn resting(alloc: Global, theory: &Theory, from: u64, end: u64) -> Result<Thm, AllocError> {
    let mut th = axiom_of(alloc, theory, from)?;
    for number in from..end {
        let other = axiom_of(alloc, theory, number)?;
        th = granted(transitive(alloc, &th, &other))?;
    }
    Ok(th)
}

/// Two theorems that rest on so many other axioms each, joined.
fn apart(alloc: Global, count: u64) -> Result<Thm, AllocError> {
    let theory = theory_of(alloc, count.saturating_mul(2))?;
    let first = resting(alloc, &theory, 0, count)?;
    let second = resting(alloc, &theory, count, count.saturating_mul(2))?;
    granted(transitive(alloc, &first, &second))
}

/// A theorem that rests on so many axioms, joined as often with one that rests on the first half of them.
fn half(alloc: Global, count: u64) -> Result<Thm, AllocError> {
    let theory = theory_of(alloc, count)?;
    let first = resting(alloc, &theory, 0, count / 2)?;
    let mut th = resting(alloc, &theory, 0, count)?;
    for _round in 0..count {
        th = granted(transitive(alloc, &first, &th))?;
    }
    Ok(th)
}

/// On how many axioms the theorem of this kind rests.
fn found(alloc: Global, kind: &str, count: u64) -> Result<usize, AllocError> {
    let th = if kind == "apart" {
        apart(alloc, count)?
    } else {
        half(alloc, count)?
    };
    Ok(th.axioms().len())
}

/// The number that a word is, and 0 where it is none.
fn number(word: Option<String>) -> u64 {
    match word {
        Some(word) => word.as_str().parse::<u64>().unwrap_or(0),
        None => 0,
    }
}

fn main(rt: HostRuntime) -> io::Result<()> {
    let alloc = rt.alloc();
    let mut words = env::args(&rt)?;
    let _program = words.next();
    let kind = words.next().unwrap_or(String::new(alloc));
    let count = number(words.next());
    let axioms = found(alloc, kind.as_str(), count)?;
    println!(rt; "{kind}: {axioms} axioms")
}
