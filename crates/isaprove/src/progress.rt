//! Running the commands of a text.
ghost use Rattle.std.specs.Prelude.{◌≡◌, ◌-◌, ◌^◌, ◌<◌, ◌&&◌, false};
ghost use Rattle.isaprove.specs.Sinks.{sinks_of, IsSame};
ghost use Rattle.isaprove.specs.Does.{DoesCommand, DoesCommands, DoesWhole, DoesFile, StopsWith, ShowsIfSome, Fails, Finishes};
ghost use Rattle.isaprove.specs.Taken.{is_memory};
ghost use Rattle.isaprove.specs.Run.{Text, skipping, is_proof_command, refusal_line};
ghost use Rattle.isaprove.specs.declared.status.Status.TheVariants as status;

use crate::console::Console;
use crate::failure::{Failure, Rejection};
use crate::message::{failure_line, refusal_line};
use crate::session::Session;
use crate::status::{Status, Stop};
use isa_io::Sink;
use isa_outer::{Command, Kind, read_commands};
use isa_theory::line_of;
use std::alloc::Global;

/// How far a run is.
#[derive(Drop)]
pub struct Progress {
    pub session: Session,
    /// Whether the run goes on behind a proof in which a method gave no state.
    pub keeps_on: bool,
    /// Whether the proof commands up to the next command that is none are skipped.
    pub skips: bool,
    /// The first failure of the run.
    pub first: Option<Failure>,
}

/// Whether it is a command of a proof.
fn is_proof_command(command: &Command) -> bool
    ensures { result ≡ is_proof_command command.now }
{
    match command {
        Command::Apply { .. }
        | Command::By { .. }
        | Command::Done { .. }
        | Command::Back { .. }
        | Command::Oops { .. }
        | Command::Print { .. } => true,
        _ => false,
    }
}

impl Progress {
    /// Drops the lemma, and skips the proof commands behind it.
    fn skip(&mut self, failure: Failure)
        ensures { self.new ≡ skipping self.old failure }
    {
        self.session.lemma = None;
        self.skips = true;
        if self.first.is_none() {
            self.first = Some(failure);
        }
    }
}

/// Tells that a method gave no state, and stops the run or goes on behind the proof.
fn fail<O: Sink, E: Sink>(
    alloc: Global,
    file: &str,
    line: u64,
    failure: Failure,
    progress: &mut Progress,
    console: &mut Console<'_, O, E>,
) -> Result<(), Stop>
    requires { (E.seen console.old.err.now).faults < 2 ^ 64 - 1 }
    ensures same { IsSame console.old console.new }
    ensures fails { Fails file.now line failure progress.old result progress.new
        (sinks_of O.seen E.seen console.old) (sinks_of O.seen E.seen console.new) }
{
    let text = failure_line(alloc, file, line, failure)?;
    console.tell(text.as_slice())?;
    if !progress.keeps_on {
        return Err(Stop::Ended(Status::Failed(failure)));
    }
    progress.skip(failure);
    Ok(())
}

/// Tells a refusal, and stops the run. Want of memory is not told.
fn refuse<O: Sink, E: Sink>(
    alloc: Global,
    file: &str,
    line: u64,
    kind: &Kind,
    console: &mut Console<'_, O, E>,
) -> Result<(), Stop>
    requires { (E.seen console.old.err.now).faults < 2 ^ 64 - 1 }
    ensures same { IsSame console.old console.new }
    ensures stops { StopsWith status.Refused (refusal_line file.now line kind.now) result
        (sinks_of O.seen E.seen console.old) (sinks_of O.seen E.seen console.new) }
{
    let text = refusal_line(alloc, file, line, kind)?;
    console.tell(text.as_slice())?;
    Err(Stop::Ended(Status::Refused))
}

/// Whether it is want of memory.
fn is_memory(kind: &Kind) -> bool
    ensures { result ≡ is_memory kind.now }
{
    matches!(kind, Kind::Memory)
}

/// Prints what a command shows, if it shows anything.
fn show<O: Sink, E: Sink>(
    text: &Option<Vec<u8>>,
    console: &mut Console<'_, O, E>,
) -> Result<(), Stop>
    requires { (O.seen console.old.out.now).faults < 2 ^ 64 - 1 }
    ensures same { IsSame console.old console.new }
    ensures shows { ShowsIfSome text.now result (sinks_of O.seen E.seen console.old) (sinks_of O.seen E.seen console.new) }
{
    match text {
        Some(text) => console.print(text.as_slice()),
        None => Ok(()),
    }
}

/// Runs a command, unless it is skipped.
fn run_command<O: Sink, E: Sink>(
    alloc: Global,
    file: &str,
    progress: &mut Progress,
    command: &Command,
    console: &mut Console<'_, O, E>,
) -> Result<(), Stop>
    requires out { (O.seen console.old.out.now).faults < 2 ^ 64 - 1 }
    requires err { (E.seen console.old.err.now).faults < 2 ^ 64 - 1 }
    ensures same { IsSame console.old console.new }
    ensures does { DoesCommand file.now progress.old command.now result progress.new
        (sinks_of O.seen E.seen console.old) (sinks_of O.seen E.seen console.new) }
{
    if progress.skips && is_proof_command(command) {
        return Ok(());
    }
    take_command(alloc, file, progress, command, console)
}

/// Takes a command that is not skipped.
fn take_command<O: Sink, E: Sink>(
    alloc: Global,
    file: &str,
    progress: &mut Progress,
    command: &Command,
    console: &mut Console<'_, O, E>,
) -> Result<(), Stop>
    requires taken { (progress.old.skips && is_proof_command command.now) ≡ false }
    requires out { (O.seen console.old.out.now).faults < 2 ^ 64 - 1 }
    requires err { (E.seen console.old.err.now).faults < 2 ^ 64 - 1 }
    ensures same { IsSame console.old console.new }
    ensures does { DoesCommand file.now progress.old command.now result progress.new
        (sinks_of O.seen E.seen console.old) (sinks_of O.seen E.seen console.new) }
{
    match progress.session.take(alloc, command) {
        Ok(text) => {
            progress.skips = false;
            show(&text, console)
        }
        Err(Rejection::Failed(failure)) => {
            fail(alloc, file, line_of(command), failure, progress, console)
        }
        Err(Rejection::Refused(refused)) => {
            if is_memory(&refused.kind) {
                return Err(Stop::Memory);
            }
            refuse(alloc, file, refused.line, &refused.kind, console)
        }
    }
}

/// Runs commands, one after another.
fn run_commands<O: Sink, E: Sink>(
    alloc: Global,
    file: &str,
    progress: &mut Progress,
    commands: &[Command],
    console: &mut Console<'_, O, E>,
) -> Result<(), Stop>
    requires out { (O.seen console.old.out.now).faults < 2 ^ 64 - 1 }
    requires err { (E.seen console.old.err.now).faults < 2 ^ 64 - 1 }
    ensures same { IsSame console.old console.new }
    ensures does { DoesCommands file.now progress.old commands.now result progress.new
        (sinks_of O.seen E.seen console.old) (sinks_of O.seen E.seen console.new) }
{
    for command in commands {
        run_command(alloc, file, progress, command, console)?;
    }
    Ok(())
}

/// Ends a file, in which no proof may be open.
fn close_text<O: Sink, E: Sink>(
    alloc: Global,
    file: &str,
    progress: &Progress,
    console: &mut Console<'_, O, E>,
) -> Result<(), Stop>
    requires { (E.seen console.old.err.now).faults < 2 ^ 64 - 1 }
    ensures same { IsSame console.old console.new }
    ensures does { Finishes file.now progress.now result
        (sinks_of O.seen E.seen console.old) (sinks_of O.seen E.seen console.new) }
{
    match &progress.session.lemma {
        None => Ok(()),
        Some(lemma) => refuse(alloc, file, lemma.lemma.line, &Kind::OpenProof, console),
    }
}

/// Runs the commands of a file, and ends it.
fn run_whole<O: Sink, E: Sink>(
    alloc: Global,
    file: &str,
    progress: &mut Progress,
    commands: &[Command],
    console: &mut Console<'_, O, E>,
) -> Result<(), Stop>
    requires out { (O.seen console.old.out.now).faults < 2 ^ 64 - 1 }
    requires err { (E.seen console.old.err.now).faults < 2 ^ 64 - 1 }
    ensures same { IsSame console.old console.new }
    ensures does { DoesWhole file.now progress.old commands.now result progress.new
        (sinks_of O.seen E.seen console.old) (sinks_of O.seen E.seen console.new) }
{
    run_commands(alloc, file, progress, commands, console)?;
    close_text(alloc, file, progress, console)
}

/// Runs the text of a file: its first refusal, or else its commands.
pub fn run_text<O: Sink, E: Sink>(
    alloc: Global,
    file: &str,
    progress: &mut Progress,
    text: &[u8],
    console: &mut Console<'_, O, E>,
) -> Result<(), Stop>
    requires out { (O.seen console.old.out.now).faults < 2 ^ 64 - 1 }
    requires err { (E.seen console.old.err.now).faults < 2 ^ 64 - 1 }
    ensures same { IsSame console.old console.new }
    ensures does { DoesFile file.now progress.old (Text text.now) result progress.new
        (sinks_of O.seen E.seen console.old) (sinks_of O.seen E.seen console.new) }
{
    match read_commands(alloc, text) {
        Ok(commands) => run_whole(alloc, file, progress, commands.as_slice(), console),
        Err(refused) => {
            if is_memory(&refused.kind) {
                return Err(Stop::Memory);
            }
            refuse(alloc, file, refused.line, &refused.kind, console)
        }
    }
}
