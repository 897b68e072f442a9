//! Reads a table of raw terms, and says of each row whether inference answers what the row begins with. The file stdin
//! explains the rows.
#![tactic(auto)]

mod fault;
mod printing;
mod raw_terms;
mod rows;
mod types;

use indexmap::IndexMap;
use isa_terms::{Name, Typ};
use std::alloc::AllocError;
use std::io;

fn main(rt: HostRuntime) -> io::Result<()> {
    let alloc = rt.alloc();
    let mut constants: IndexMap<Name, Typ> = IndexMap::new(alloc);
    for line in rt.lines(alloc) {
        let line = line?;
        print_row(rt, &mut constants, line.as_str())?;
    }
    Ok(())
}

/// Prints whether the row answers what it tells, and nothing of a row without a call.
fn print_row(rt: HostRuntime, constants: &mut IndexMap<Name, Typ>, line: &str) -> io::Result<()> {
    match rows::answer(rt.alloc(), constants, line) {
        Ok(None) => Ok(()),
        Ok(Some((wanted, answer))) => {
            let answer = answer.as_str();
            if answer == wanted {
                println!(rt; "ok      {line}")
            } else {
                println!(rt; "DIFFERS {line} answers {answer}")
            }
        }
        Err(fault::Fault::Memory) => Err(AllocError.into()),
        Err(fault::Fault::Words) => println!(rt; "FAULT   {line}"),
    }
}
