//! How long a machine takes for many rounds, and how much memory: `isa_seq_bench KIND ROUNDS`, KIND being one of
//! `first` (the first result of each round), `all` (all of them), `deep` and `best` (searches).
//! A million rounds took 0.1, 0.4, 0.4 and 0.1 s of one processor. With `first` and `best` the memory is the same for a thousand and
//! for a million, 1 MB; with `all` and `deep` each round leaves a run that may go on, and a million take 290 MB.
#![tactic(auto)]

use isa_seq::{Answer, Machine, Tac, TacNode, ask};
use isa_seq_numbers::{Numbers, Step};
use std::alloc::{AllocError, Global};
use std::{env, io};

/// The expression of this kind for so many rounds, each of which adds ten.
fn expression(alloc: Global, kind: &str, rounds: u64) -> Result<Tac<Step>, AllocError> {
    let step = Tac::new(alloc, TacNode::Goal(Step::Climb(rounds.saturating_mul(10))))?;
    if kind == "all" {
        return Tac::new(alloc, TacNode::Repeat(step));
    }
    if kind == "deep" {
        return Tac::new(alloc, TacNode::DepthFirst(step));
    }
    if kind == "best" {
        return Tac::new(alloc, TacNode::BestFirst(step));
    }
    Tac::new(alloc, TacNode::RepeatDeterm(step))
}

/// The first answer on a state with so many subgoals, as text.
fn answer(alloc: Global, tac: &Tac<Step>, subgoals: u64) -> Result<String, AllocError> {
    let mut machine = Machine::start(alloc, &Numbers, tac, &subgoals)?;
    match ask(alloc, &Numbers, &mut machine, u64::MAX)? {
        Answer::State(number) => format!(in alloc; "result {number}"),
        Answer::NoMore => String::from_str(alloc, "no more"),
        Answer::NoMoreOutside(_) => String::from_str(alloc, "no more, outside"),
        Answer::Spent => String::from_str(alloc, "spent"),
    }
}

fn main(rt: HostRuntime) -> io::Result<()> {
    let alloc = rt.alloc();
    let mut words = env::args(&rt)?;
    let _program = words.next();
    let kind = words.next().unwrap_or(String::new(alloc));
    let rounds = match words.next() {
        Some(word) => word.as_str().parse::<u64>().unwrap_or(0),
        None => 0,
    };
    let tac = expression(alloc, kind.as_str(), rounds)?;
    let text = answer(alloc, &tac, 1)?;
    println!(rt; "{kind} {rounds}: {text}")
}
