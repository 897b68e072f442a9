//! Reads a table of theory texts, and says of each row whether it answers what the row begins with. The file stdin explains the rows.
#![tactic(auto)]

mod escapes;
mod rows;

use std::io;

fn main(rt: HostRuntime) -> io::Result<()> {
    for line in rt.lines(rt.alloc()) {
        let line = line?;
        print_row(rt, line.as_str())?;
    }
    Ok(())
}

/// Prints whether the row answers what it tells, and nothing of a line without a bar.
fn print_row(rt: HostRuntime, line: &str) -> io::Result<()> {
    let Some((wanted, text)) = line.split_once(" | ") else {
        return Ok(());
    };
    let answer = rows::answer(rt, text)?;
    if answer.as_str() == wanted {
        println!(rt; "ok      {line}")
    } else {
        println!(rt; "DIFFERS {line} answers {answer}")
    }
}
