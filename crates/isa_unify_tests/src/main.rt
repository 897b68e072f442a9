// Reads a table of matches and unifications, and says of each row whether it answers what the row begins with. The file
// stdin explains the rows.
#![tactic(auto)]

mod constants;
mod instances;
mod matches;
mod rows;
mod unifications;

use isa_sketch::{Bench, print_answer};
use std::alloc::AllocError;
use std::io;

fn main(rt: HostRuntime) -> io::Result<()> {
    let alloc = rt.alloc();
    let Ok(mut bench) = Bench::new(alloc) else {
        return Err(AllocError.into());
    };
    for line in rt.lines(alloc) {
        let line = line?;
        let answer = rows::row(alloc, &mut bench, line.as_str());
        print_answer(rt, line.as_str(), answer)?;
    }
    Ok(())
}
