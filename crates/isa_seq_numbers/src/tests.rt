#![tactic(auto)]

use crate::{Numbers, Step, events};
use isa_seq::{Answer, Event, Machine, Tac, TacNode, ask};
use std::alloc::{AllocError, Global};
use std::test::Fail;

fn node(alloc: Global, node: TacNode<Step>) -> Result<Tac<Step>, AllocError> {
    Tac::new(alloc, node)
}

fn solve(alloc: Global, ways: usize) -> Result<Tac<Step>, AllocError> {
    node(alloc, TacNode::Goal(Step::Solve(ways)))
}

fn stray(alloc: Global) -> Result<Tac<Step>, AllocError> {
    node(alloc, TacNode::Goal(Step::Stray))
}

fn id(alloc: Global) -> Result<Tac<Step>, AllocError> {
    node(alloc, TacNode::Id)
}

/// One event as a word: T for a tick, O for an `Outside`, and the number that is a result.
fn word(alloc: Global, event: &Event<u64>) -> Result<String, AllocError> {
    match event {
        Event::Tick => String::from_str(alloc, " T"),
        Event::Outside => String::from_str(alloc, " O"),
        Event::Res(number) => format!(in alloc; " {number}"),
    }
}

/// The first events, at most so many, of an expression on a number.
fn row(alloc: Global, kind: TacNode<Step>, state: u64, limit: usize) -> Result<String, AllocError> {
    let tac = node(alloc, kind)?;
    let mut text = String::new(alloc);
    for event in events(alloc, &tac, state, limit)?.iter() {
        text.push_str(word(alloc, event)?.as_str())?;
    }
    Ok(text)
}

#[test]
fn gives_the_table_of_combinators(rt: HostRuntime) -> Result<(), Fail> {
    let a = rt.alloc();
    assert_eq!(rt; row(a, TacNode::Id, 2, 40)?.as_str(), " 2");
    assert_eq!(rt; row(a, TacNode::Fail, 2, 40)?.as_str(), "");
    assert_eq!(rt; row(a, TacNode::Solved, 2, 40)?.as_str(), "");
    assert_eq!(rt; row(a, TacNode::Solved, 10, 40)?.as_str(), " 10");
    assert_eq!(rt;
        row(a, TacNode::Goal(Step::Solve(3)), 3, 40)?.as_str(),
        " T 2 12 22"
    );
    let then = TacNode::Then(solve(a, 2)?, solve(a, 2)?);
    assert_eq!(rt; row(a, then, 2, 40)?.as_str(), " T T 0 10 T 10 20");
    let or_else = TacNode::OrElse(stray(a)?, solve(a, 2)?);
    assert_eq!(rt; row(a, or_else, 2, 40)?.as_str(), " T O T 1 11");
    let or_else = TacNode::OrElse(solve(a, 2)?, stray(a)?);
    assert_eq!(rt; row(a, or_else, 2, 40)?.as_str(), " T 1 11");
    let append = TacNode::Append(solve(a, 2)?, id(a)?);
    assert_eq!(rt; row(a, append, 2, 40)?.as_str(), " T 1 11 2");
    assert_eq!(rt; row(a, TacNode::Try(stray(a)?), 2, 40)?.as_str(), " T O 2");
    assert_eq!(rt;
        row(a, TacNode::Determ(solve(a, 2)?), 2, 40)?.as_str(),
        " T 1"
    );
    Ok(())
}

#[test]
fn gives_the_table_of_repetitions(rt: HostRuntime) -> Result<(), Fail> {
    let a = rt.alloc();
    let changed = TacNode::Changed(node(a, TacNode::Append(id(a)?, solve(a, 2)?))?);
    assert_eq!(rt; row(a, changed, 2, 40)?.as_str(), " T 1 11");
    assert_eq!(rt;
        row(a, TacNode::Repeat(solve(a, 2)?), 1, 40)?.as_str(),
        " T T T T 0 T T 10"
    );
    assert_eq!(rt;
        row(a, TacNode::RepeatDeterm(solve(a, 2)?), 1, 40)?.as_str(),
        " T T T T 0"
    );
    assert_eq!(rt;
        row(a, TacNode::FirstGoal(stray(a)?), 2, 40)?.as_str(),
        " T O T O"
    );
    assert_eq!(rt;
        row(a, TacNode::FirstGoal(solve(a, 1)?), 10, 40)?.as_str(),
        ""
    );
    assert_eq!(rt;
        row(a, TacNode::AllGoals(solve(a, 1)?), 2, 40)?.as_str(),
        " T T 0"
    );
    assert_eq!(rt;
        row(a, TacNode::AllGoals(solve(a, 1)?), 10, 40)?.as_str(),
        " 10"
    );
    assert_eq!(rt;
        row(a, TacNode::Select(solve(a, 2)?), 3, 40)?.as_str(),
        " T 2 12"
    );
    assert_eq!(rt; row(a, TacNode::Select(id(a)?), 10, 40)?.as_str(), "");
    Ok(())
}

#[test]
fn gives_the_table_of_searches(rt: HostRuntime) -> Result<(), Fail> {
    let a = rt.alloc();
    let deep = TacNode::DepthFirst(solve(a, 2)?);
    assert_eq!(rt;
        row(a, deep, 2, 40)?.as_str(),
        " T T T T T 0 T 10 T T T 10 T 20"
    );
    let twice = node(a, TacNode::Append(solve(a, 2)?, solve(a, 2)?))?;
    assert_eq!(rt;
        row(a, TacNode::BestFirst(twice), 1, 40)?.as_str(),
        " T T T T 0 T 10"
    );
    let both = node(a, TacNode::Then(solve(a, 2)?, solve(a, 2)?))?;
    let best = TacNode::BestFirst(node(a, TacNode::Append(solve(a, 2)?, both))?);
    assert_eq!(rt; row(a, best, 2, 11)?.as_str(), " T T T T T T 0 T 10 T 20");
    Ok(())
}

#[test]
fn is_stopped_and_resumed(rt: HostRuntime) -> Result<(), Fail> {
    let a = rt.alloc();
    let tac = solve(a, 3)?;
    let mut machine = Machine::start(a, &Numbers, &tac, &3)?;
    assert_eq!(rt; machine.pull(a, &Numbers)?, Some(Event::Tick));
    assert_eq!(rt; machine.pull(a, &Numbers)?, Some(Event::Res(2)));
    assert_eq!(rt; machine.pull(a, &Numbers)?, Some(Event::Res(12)));
    assert_eq!(rt; machine.pull(a, &Numbers)?, Some(Event::Res(22)));
    assert_eq!(rt; machine.pull(a, &Numbers)?, None);
    assert_eq!(rt; machine.pull(a, &Numbers)?, None);
    assert_eq!(rt;
        row(a, TacNode::Goal(Step::Solve(3)), 3, 40)?.as_str(),
        " T 2 12 22"
    );
    Ok(())
}

#[test]
fn answers_result_after_result(rt: HostRuntime) -> Result<(), Fail> {
    let a = rt.alloc();
    let tac = node(a, TacNode::Append(solve(a, 2)?, stray(a)?))?;
    let mut machine = Machine::start(a, &Numbers, &tac, &2)?;
    assert_eq!(rt; ask(a, &Numbers, &mut machine, 1)?, Answer::Spent);
    assert_eq!(rt; ask(a, &Numbers, &mut machine, 2)?, Answer::State(1));
    assert_eq!(rt; ask(a, &Numbers, &mut machine, 2)?, Answer::State(11));
    assert_eq!(rt; ask(a, &Numbers, &mut machine, 2)?, Answer::Spent);
    assert_eq!(rt;
        ask(a, &Numbers, &mut machine, 3)?,
        Answer::NoMoreOutside(1)
    );
    let mut machine = Machine::start(a, &Numbers, &id(a)?, &2)?;
    assert_eq!(rt; ask(a, &Numbers, &mut machine, 1)?, Answer::State(2));
    assert_eq!(rt; ask(a, &Numbers, &mut machine, 1)?, Answer::NoMore);
    Ok(())
}
