//! Reads a table of commands, and says of each row whether its commands answer what the row begins with. The file stdin
//! explains the rows.
#![tactic(auto)]

mod commands;
mod rows;

use std::io;

fn main(rt: HostRuntime) -> io::Result<()> {
    let alloc = rt.alloc();
    let mut before = String::new(alloc);
    for line in rt.lines(alloc) {
        let line = line?;
        if let Some(text) = line.as_str().strip_prefix("before: ") {
            before = String::from_str(alloc, text)?;
        } else {
            print_row(rt, before.as_str(), line.as_str())?;
        }
    }
    Ok(())
}

/// Prints whether the row answers what it tells, and nothing of a line without a bar.
fn print_row(rt: HostRuntime, before: &str, line: &str) -> io::Result<()> {
    let Some((wanted, text)) = line.split_once(" | ") else {
        return Ok(());
    };
    let answer = rows::answer(rt.alloc(), before, wanted, text)?;
    if answer.as_str() == wanted {
        println!(rt; "ok      {line}")
    } else {
        println!(rt; "DIFFERS {line} answers {answer}")
    }
}
