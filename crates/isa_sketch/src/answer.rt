//! What is printed of a row.
use crate::fault::Fault;
use std::alloc::AllocError;
use std::io;

/// Prints whether a row answers what it tells, and nothing of a row without a call.
pub fn print_answer(
    rt: HostRuntime,
    line: &str,
    answer: Result<Option<bool>, Fault>,
) -> io::Result<()> {
    match answer {
        Ok(None) => Ok(()),
        Ok(Some(true)) => println!(rt; "ok      {line}"),
        Ok(Some(false)) => println!(rt; "DIFFERS {line}"),
        Err(Fault::Memory) => Err(AllocError.into()),
        Err(_) => println!(rt; "FAULT   {line}"),
    }
}
