//! Reads a table of certificates, and says of each row whether checking answers what the row begins with. The file stdin explains the rows.
#![tactic(auto)]

mod printing;
mod rows;
mod texts;

use std::io;

fn main(rt: HostRuntime) -> io::Result<()> {
    let mut beginning = Vec::new(rt.alloc());
    for line in rt.lines(rt.alloc()) {
        let line = line?;
        match line.as_str().strip_prefix("begin ") {
            Some(text) => beginning = texts::plain(rt.alloc(), text.as_bytes())?,
            None => print_row(rt, beginning.as_slice(), line.as_str())?,
        }
    }
    Ok(())
}

/// Prints whether the row answers what it tells, and nothing of a line without a bar.
fn print_row(rt: HostRuntime, beginning: &[u8], line: &str) -> io::Result<()> {
    let Some((wanted, text)) = line.split_once(" | ") else {
        return Ok(());
    };
    let answer = rows::answer(rt.alloc(), beginning, text)?;
    if answer.as_str() == wanted {
        println!(rt; "ok      {line}")
    } else {
        println!(rt; "DIFFERS {line} answers {answer}")
    }
}
