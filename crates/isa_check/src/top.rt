//! The top call.
ghost use Rattle.std.specs.Prelude.{◌≡◌, ◌-◌, ◌^◌, ◌<◌, ◌+◌, ◌++◌, ◌==◌, count_by, codes, decimal, string_bytes, IfOk, MatchResult};
ghost use Rattle.isa_io.specs.FilesSeen.{NoFault};
ghost use Rattle.isa_cert.specs.Checking.{checked};
ghost use Rattle.isa_check.specs.Run.{run_checked, run_given, refused, names};
ghost use Rattle.isa_check.specs.Does.{sinks, Does};
ghost use Rattle.isa_check.specs.Given.{given_view, IsGiven, RunsWords, AnswersWords};
ghost use Rattle.isa_check.specs.declared.status.Stop.TheVariants.{Memory};

use crate::output::{print_all, report};
use crate::status::{Status, Stop};
use isa_cert::{CertFail, check_cert};
use isa_io::{Files, ReadFail, Sink, read_file};
use std::alloc::{AllocError, Global};

/// No longer file is read.
const LIMIT: usize = 67_108_864;

const USAGE: &str = "usage: isacheck FILE";

/// What the files gave for a word.
#[derive(Drop)]
enum Reading {
    Text(Vec<u8>),
    Long,
    Failed,
}

/// Reads a file.
fn read_input<F: Files>(alloc: Global, name: &str, files: &mut F) -> Result<Reading, Stop>
    requires faults { (F.seen files.old).faults < 2 ^ 64 - 1 }
    requires opens { (F.seen files.old).opens < 2 ^ 64 - 1 }
    ensures { MatchResult result
        (λ reading. IsGiven (F.seen files.old) (F.seen files.new) name.now (given_view reading))
        (λ stop. (stop ≡ Memory) × NoFault (F.seen files.old) (F.seen files.new)) }
{
    match read_file(alloc, files, name, LIMIT) {
        Ok(bytes) => Ok(Reading::Text(bytes)),
        Err(ReadFail::TooLong) => Ok(Reading::Long),
        Err(ReadFail::Failed) => Ok(Reading::Failed),
        Err(ReadFail::Memory) => Err(Stop::Memory),
    }
}

fn too_long(alloc: Global, name: &str) -> Result<String, AllocError>
    ensures { IfOk result (λ s. string_bytes s ≡ name.now ++ codes ": longer than 67108864 bytes") }
{
    format!(in alloc; "{name}: longer than 67108864 bytes")
}

fn unreadable(alloc: Global, name: &str) -> Result<String, AllocError>
    ensures { IfOk result (λ s. string_bytes s ≡ name.now ++ codes ": cannot be read") }
{
    format!(in alloc; "{name}: cannot be read")
}

fn refused_at(alloc: Global, name: &str, line: u64) -> Result<String, AllocError>
    ensures { IfOk result (λ s. string_bytes s ≡ name.now ++ (codes ":" ++ (decimal line ++ codes ": certificate refused"))) }
{
    format!(in alloc; "{name}:{line}: certificate refused")
}

/// Tells that the certificate is refused.
#[tactic(auto, using(crate::proofs::Printing::memory_does))]
fn refuse<O: Sink, E: Sink>(
    alloc: Global,
    name: &str,
    line: u64,
    out: &mut O,
    err: &mut E,
) -> Result<(), Stop>
    requires err { (E.seen err.old).faults < 2 ^ 64 - 1 }
    ensures { Does (refused name.now line) result
        (sinks (O.seen out.old) (E.seen err.old)) (sinks (O.seen out.new) (E.seen err.new)) }
{
    let message = refused_at(alloc, name, line)?;
    report(alloc, Status::Refused, message.as_str(), out, err)
}

/// How many lines the text has.
fn line_count(text: &[u8]) -> usize
    ensures { result ≡ count_by (λ b. b == 10) text.now }
{
    text.iter().filter(|byte| **byte == b'\n').count()
}

/// Checks a text, and tells what it proves.
#[tactic(auto, using(crate::proofs::Printing::nothing_does))]
fn run_text<O: Sink, E: Sink>(
    alloc: Global,
    name: &str,
    text: &[u8],
    out: &mut O,
    err: &mut E,
) -> Result<(), Stop>
    requires out { (O.seen out.old).faults < 2 ^ 64 - 1 }
    requires err { (E.seen err.old).faults < 2 ^ 64 - 1 }
    ensures { Does (run_checked name.now text.now (checked text.now)) result
        (sinks (O.seen out.old) (E.seen err.old)) (sinks (O.seen out.new) (E.seen err.new)) }
{
    match check_cert(alloc, text) {
        Ok(list) => print_all(alloc, list.as_slice(), out, err),
        Err(CertFail::Form(line)) => refuse(alloc, name, line, out, err),
        Err(CertFail::Typed(line)) => refuse(alloc, name, line, out, err),
        Err(CertFail::Step(line)) => refuse(alloc, name, line, out, err),
        Err(CertFail::NoEnd) => refuse(alloc, name, line_count(text) as u64, out, err),
        Err(CertFail::Memory) => Err(Stop::Memory),
    }
}

/// Checks what was read of a file.
#[tactic(auto, using(crate::proofs::Printing::memory_does))]
fn run_reading<O: Sink, E: Sink>(
    alloc: Global,
    name: &str,
    reading: &Reading,
    out: &mut O,
    err: &mut E,
) -> Result<(), Stop>
    requires out { (O.seen out.old).faults < 2 ^ 64 - 1 }
    requires err { (E.seen err.old).faults < 2 ^ 64 - 1 }
    ensures { Does (run_given name.now (given_view reading.now)) result
        (sinks (O.seen out.old) (E.seen err.old)) (sinks (O.seen out.new) (E.seen err.new)) }
{
    match reading {
        Reading::Text(bytes) => run_text(alloc, name, bytes.as_slice(), out, err),
        Reading::Long => {
            let message = too_long(alloc, name)?;
            report(alloc, Status::TooLong, message.as_str(), out, err)
        }
        Reading::Failed => {
            let message = unreadable(alloc, name)?;
            report(alloc, Status::ReadFault, message.as_str(), out, err)
        }
    }
}

/// Reads and checks the file that the words name.
#[tactic(auto, using(crate::proofs::Reading::words_none, crate::proofs::Reading::words_two))]
fn run_words<F: Files, O: Sink, E: Sink>(
    alloc: Global,
    words: &[String],
    files: &mut F,
    out: &mut O,
    err: &mut E,
) -> Result<(), Stop>
    requires faults { (F.seen files.old).faults < 2 ^ 64 - 1 }
    requires opens { (F.seen files.old).opens ≡ 0 }
    requires out { (O.seen out.old).faults < 2 ^ 64 - 1 }
    requires err { (E.seen err.old).faults < 2 ^ 64 - 1 }
    ensures { RunsWords (names words.now) (F.seen files.old) (F.seen files.new) result
        (sinks (O.seen out.old) (E.seen err.old)) (sinks (O.seen out.new) (E.seen err.new)) }
{
    let Some((word, rest)) = words.split_first() else {
        return report(alloc, Status::Usage, USAGE, out, err);
    };
    if !rest.is_empty() {
        return report(alloc, Status::Usage, USAGE, out, err);
    }
    let name = word.as_str();
    let reading = read_input(alloc, name, files)?;
    run_reading(alloc, name, &reading, out, err)
}

/// Checks the file that the words name, over files that none was opened of, and answers the status.
pub fn check_run<F: Files, O: Sink, E: Sink>(
    alloc: Global,
    words: &[String],
    files: &mut F,
    out: &mut O,
    err: &mut E,
) -> u8
    requires faults { (F.seen files.old).faults < 2 ^ 64 - 1 }
    requires opens { (F.seen files.old).opens ≡ 0 }
    requires out { (O.seen out.old).faults < 2 ^ 64 - 1 }
    requires err { (E.seen err.old).faults < 2 ^ 64 - 1 }
    ensures { AnswersWords (names words.now) (F.seen files.old) (F.seen files.new) result
        (sinks (O.seen out.old) (E.seen err.old)) (sinks (O.seen out.new) (E.seen err.new)) }
{
    match run_words(alloc, words, files, out, err) {
        Ok(()) => 0,
        Err(stop) => stop.code(),
    }
}
