//! The program: a batch prover over files.
#![tactic(auto)]

mod asking;
mod console;
mod failure;
mod files;
mod message;
mod plain;
mod progress;
mod session;
mod status;
#[cfg(test)]
mod tests;
mod top;
mod words;

use isa_io::{HostFiles, StreamSink};
use std::io::ErrorKind;
use std::process::ExitCode;
use std::{env, io};
pub use top::{answers_have_causes, one_run, run, runs_are_sound};

/// The status where no memory was found for the words.
const MEMORY: u8 = 6;

/// The words after the program's name.
fn given_words(rt: &HostRuntime) -> io::Result<Vec<String>> {
    let mut words = Vec::new(rt.alloc());
    for word in env::args(rt)?.skip(1) {
        words.push(word)?;
    }
    Ok(words)
}

fn main(rt: HostRuntime) -> ExitCode {
    let words = match given_words(&rt) {
        Ok(words) => words,
        Err(error) if error.kind() == ErrorKind::OutOfMemory => return ExitCode::from(MEMORY),
        // Words that are no text have no reading.
        Err(_) => Vec::new(rt.alloc()),
    };
    let mut out = StreamSink::new(rt.stdout());
    let mut err = StreamSink::new(rt.stderr());
    let mut files = HostFiles::new(rt);
    let alloc = rt.alloc();
    ExitCode::from(run(alloc, words.as_slice(), &mut files, &mut out, &mut err))
}
