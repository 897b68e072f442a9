//! The program: checks a file of certificates.
#![tactic(auto)]

use isa_check::check_run;
use isa_io::{HostFiles, StreamSink};
use std::io::ErrorKind;
use std::process::ExitCode;
use std::{env, io};

/// The status where no memory was found for the words.
const MEMORY: u8 = 6;

/// The words after the program's name.
fn given_words(rt: &HostRuntime) -> io::Result<Vec<String>> {
    let mut words = Vec::new(rt.alloc());
    for word in env::args(rt)?.skip(1) {
        words.push(word)?;
    }
    Ok(words)
}

fn main(rt: HostRuntime) -> ExitCode {
    let words = match given_words(&rt) {
        Ok(words) => words,
        Err(error) if error.kind() == ErrorKind::OutOfMemory => return ExitCode::from(MEMORY),
        // Words that are no text name no file.
        Err(_) => Vec::new(rt.alloc()),
    };
    let mut out = StreamSink::new(rt.stdout());
    let mut err = StreamSink::new(rt.stderr());
    let mut files = HostFiles::new(rt);
    let alloc = rt.alloc();
    ExitCode::from(check_run(alloc, words.as_slice(), &mut files, &mut out, &mut err))
}
