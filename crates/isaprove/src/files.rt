//! Reading and running files.
ghost use Rattle.std.specs.Prelude.{◌≡◌, ◌-◌, ◌^◌, ◌<◌, ◌+◌, ◌++◌, codes, MatchResult};
ghost use Rattle.isa_io.specs.FilesSeen.{NoFault};
ghost use Rattle.isaprove.specs.Sinks.{sinks_of, IsSame};
ghost use Rattle.isaprove.specs.Does.{DoesFile, StopsWith};
ghost use Rattle.isaprove.specs.Inputs.{given_view, IsReading, RunsFile, RunsFiles};
ghost use Rattle.isaprove.specs.Run.{names};
ghost use Rattle.isaprove.specs.declared.status.Stop.TheVariants.{Memory};

use crate::console::Console;
use crate::message::file_line;
use crate::progress::{Progress, run_text};
use crate::status::{Status, Stop};
use isa_io::{Files, ReadFail, Sink, read_file};
use std::alloc::Global;

/// No longer file is read.
pub const LIMIT: usize = 16_777_216;

/// What the files gave for a word.
#[derive(Drop)]
enum Reading {
    Text(Vec<u8>),
    Long,
    Failed,
}

/// Reads a file.
fn read_input<F: Files>(alloc: Global, name: &str, files: &mut F) -> Result<Reading, Stop>
    requires faults { (F.seen files.old).faults < 2 ^ 64 - 1 }
    requires opens { (F.seen files.old).opens < 2 ^ 64 - 1 }
    ensures opens { (F.seen files.new).opens ≡ (F.seen files.old).opens + 1 }
    ensures texts { (F.seen files.new).texts ≡ (F.seen files.old).texts }
    ensures answer { MatchResult result
        (λ reading. IsReading (F.seen files.old) (F.seen files.new) name.now (given_view reading))
        (λ stop. (stop ≡ Memory) × NoFault (F.seen files.old) (F.seen files.new)) }
{
    match read_file(alloc, files, name, LIMIT) {
        Ok(bytes) => Ok(Reading::Text(bytes)),
        Err(ReadFail::TooLong) => Ok(Reading::Long),
        Err(ReadFail::Failed) => Ok(Reading::Failed),
        Err(ReadFail::Memory) => Err(Stop::Memory),
    }
}

/// Tells a text about a whole file, and stops the run.
fn refuse_file<O: Sink, E: Sink>(
    alloc: Global,
    name: &str,
    text: &str,
    status: Status,
    console: &mut Console<'_, O, E>,
) -> Result<(), Stop>
    requires { (E.seen console.old.err.now).faults < 2 ^ 64 - 1 }
    ensures same { IsSame console.old console.new }
    ensures stops { StopsWith status (name.now ++ text.now ++ codes "\n") result
        (sinks_of O.seen E.seen console.old) (sinks_of O.seen E.seen console.new) }
{
    let line = file_line(alloc, name, text)?;
    console.tell(line.as_slice())?;
    Err(Stop::Ended(status))
}

/// Runs what was read of a file.
fn run_reading<O: Sink, E: Sink>(
    alloc: Global,
    name: &str,
    reading: &Reading,
    progress: &mut Progress,
    console: &mut Console<'_, O, E>,
) -> Result<(), Stop>
    requires out { (O.seen console.old.out.now).faults < 2 ^ 64 - 1 }
    requires err { (E.seen console.old.err.now).faults < 2 ^ 64 - 1 }
    ensures same { IsSame console.old console.new }
    ensures does { DoesFile name.now progress.old (given_view reading.now) result progress.new
        (sinks_of O.seen E.seen console.old) (sinks_of O.seen E.seen console.new) }
{
    match reading {
        Reading::Text(bytes) => run_text(alloc, name, progress, bytes.as_slice(), console),
        Reading::Long => refuse_file(
            alloc,
            name,
            ": longer than 16777216 bytes",
            Status::Refused,
            console,
        ),
        Reading::Failed => refuse_file(alloc, name, ": cannot be read", Status::ReadFault, console),
    }
}

/// Reads a file and runs it.
fn run_file<F: Files, O: Sink, E: Sink>(
    alloc: Global,
    name: &str,
    progress: &mut Progress,
    files: &mut F,
    console: &mut Console<'_, O, E>,
) -> Result<(), Stop>
    requires faults { (F.seen files.old).faults < 2 ^ 64 - 1 }
    requires opens { (F.seen files.old).opens < 2 ^ 64 - 1 }
    requires out { (O.seen console.old.out.now).faults < 2 ^ 64 - 1 }
    requires err { (E.seen console.old.err.now).faults < 2 ^ 64 - 1 }
    ensures opens { (F.seen files.new).opens ≡ (F.seen files.old).opens + 1 }
    ensures texts { (F.seen files.new).texts ≡ (F.seen files.old).texts }
    ensures same { IsSame console.old console.new }
    ensures runs { RunsFile name.now (F.seen files.old) (F.seen files.new) progress.old result
        progress.new
        (sinks_of O.seen E.seen console.old) (sinks_of O.seen E.seen console.new) }
{
    let reading = read_input(alloc, name, files)?;
    run_reading(alloc, name, &reading, progress, console)
}

/// Reads files in order and runs each before the next is opened.
pub fn run_files<F: Files, O: Sink, E: Sink>(
    alloc: Global,
    words: &[String],
    progress: &mut Progress,
    files: &mut F,
    console: &mut Console<'_, O, E>,
) -> Result<(), Stop>
    requires faults { (F.seen files.old).faults < 2 ^ 64 - 1 }
    requires opens { (F.seen files.old).opens ≡ 0 }
    requires out { (O.seen console.old.out.now).faults < 2 ^ 64 - 1 }
    requires err { (E.seen console.old.err.now).faults < 2 ^ 64 - 1 }
    ensures same { IsSame console.old console.new }
    ensures runs { RunsFiles (names words.now) (F.seen files.old) (F.seen files.new) progress.old result
        progress.new
        (sinks_of O.seen E.seen console.old) (sinks_of O.seen E.seen console.new) }
{
    for word in words {
        run_file(alloc, word.as_str(), progress, files, console)?;
    }
    Ok(())
}
