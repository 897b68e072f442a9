//! What reading a text answers.
use crate::escapes::plain;
use isa_io::{HostFiles, ReadFail, read_file};
use isa_outer::read_commands;
use std::alloc::{AllocError, Global};
use std::io;
use std::io::ErrorKind;

/// How many bytes a file may have.
const LIMIT: usize = 16_777_216;

/// The answer for the text, in which `\n`, `\t`, `\r` and `\b` stand for bytes, or for the named file.
pub fn answer(rt: HostRuntime, text: &str) -> io::Result<String> {
    let alloc = rt.alloc();
    let bytes = match text.strip_prefix("file ") {
        Some(name) => file(rt, name)?,
        None => plain(alloc, text.as_bytes())?,
    };
    Ok(answer_of(alloc, bytes.as_slice())?)
}

fn file(rt: HostRuntime, name: &str) -> io::Result<Vec<u8>> {
    let mut files = HostFiles::new(rt);
    match read_file(rt.alloc(), &mut files, name, LIMIT) {
        Ok(bytes) => Ok(bytes),
        Err(ReadFail::Memory) => Err(AllocError.into()),
        Err(_) => Err(ErrorKind::NotFound.into()),
    }
}

/// The number of commands, or the refusal.
fn answer_of(alloc: Global, text: &[u8]) -> Result<String, AllocError> {
    match read_commands(alloc, text) {
        Ok(commands) => {
            let count = commands.as_slice().len();
            format!(in alloc; "read {count}")
        }
        Err(refused) => format!(in alloc; "{refused}"),
    }
}
