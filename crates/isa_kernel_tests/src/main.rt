//! Reads a table of calls of the kernel, and says of each row whether it answers what the row begins with. The file stdin
//! explains the rows.
#![tactic(auto)]

mod rows;
mod theorems;
mod theories;

use isa_sketch::{Bench, print_answer};
use std::alloc::AllocError;
use std::io;

fn main(rt: HostRuntime) -> io::Result<()> {
    let alloc = rt.alloc();
    let Ok(mut bench) = Bench::new(alloc) else {
        return Err(AllocError.into());
    };
    for line in rt.lines(alloc) {
        let line = line?;
        let answer = rows::row(alloc, &mut bench, line.as_str());
        print_answer(rt, line.as_str(), answer)?;
    }
    Ok(())
}
