//! Reads a table of inner texts, and says of each row whether reading the text answers what the row begins with. The file
//! stdin explains the rows.
#![tactic(auto)]

mod declaring;
mod expanding;
mod fault;
mod printing;
mod rows;

use isa_syntax::Syntax;
use std::io;

fn main(rt: HostRuntime) -> io::Result<()> {
    let mut syntax = Syntax::new(rt.alloc())?;
    for line in rt.lines(rt.alloc()) {
        let line = line?;
        print_row(rt, &mut syntax, line.as_str())?;
    }
    Ok(())
}

/// Prints whether the row answers what it tells. A line without a bar prints nothing; it may declare something.
fn print_row(rt: HostRuntime, syntax: &mut Syntax, line: &str) -> io::Result<()> {
    let Some((wanted, call)) = line.split_once(" | ") else {
        return Ok(declaring::declare_line(rt.alloc(), syntax, line)?);
    };
    let answer = rows::answer(rt.alloc(), syntax, call)?;
    if answer.as_str() == wanted {
        println!(rt; "ok      {line}")
    } else {
        println!(rt; "DIFFERS {line} answers {answer}")
    }
}
