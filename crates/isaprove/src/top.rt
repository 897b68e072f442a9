//! The top call.
ghost use Rattle.std.specs.Prelude.{◌≡◌, ◌-◌, ◌^◌, ◌<◌, map, IfSome, IfOk};
ghost use Rattle.isaprove.specs.Does.{StopsWith};
ghost use Rattle.isaprove.specs.Inputs.{RunsWords, AnswersAny, OpensNoMore};
ghost use Rattle.isaprove.specs.Laws.{RunsAreSound, OneRun, AnswersHaveCauses};
ghost use Rattle.isaprove.specs.Printed.{Answers};
ghost use Rattle.isaprove.specs.Run.{Starts, names, usage, gave, input_of, file_words, start, first_code};
ghost use Rattle.isaprove.specs.Sinks.{sinks, sinks_of, IsSame};
ghost use Rattle.isaprove.specs.declared.status.Status.TheVariants as status;

use crate::console::Console;
use crate::failure::Failure;
use crate::files::run_files;
use crate::progress::Progress;
use crate::session::Session;
use crate::status::{Status, Stop};
use crate::words::{file_words, is_reading, keeps_on};
use isa_io::{Files, Sink};
use std::alloc::{AllocError, Global};

const USAGE: &str = "usage: isaprove [-k] FILE... | isaprove --generate N\n";

/// Tells the usage, and stops the run.
fn tell_usage<O: Sink, E: Sink>(console: &mut Console<'_, O, E>) -> Result<u8, Stop>
    requires { (E.seen console.old.err.now).faults < 2 ^ 64 - 1 }
    ensures same { IsSame console.old console.new }
    ensures stops { StopsWith status.Usage usage result
        (sinks_of O.seen E.seen console.old) (sinks_of O.seen E.seen console.new) }
{
    console.tell(USAGE.as_bytes())?;
    Err(Stop::Ended(Status::Usage))
}

/// The start of a run.
fn start(alloc: Global, keeps_on: bool) -> Result<Progress, AllocError>
    ensures { IfOk result (λ p. p ≡ start keeps_on) }
{
    let session = Session::new(alloc)?;
    Ok(Progress {
        session,
        keeps_on,
        skips: false,
        first: None,
    })
}

/// The status of a run that went to its end.
fn end_code(first: Option<Failure>) -> u8
    ensures { result ≡ first_code first }
{
    match first {
        None => 0,
        Some(failure) => failure.code(),
    }
}

/// Runs the words.
fn run_words<F: Files, O: Sink, E: Sink>(
    alloc: Global,
    words: &[String],
    files: &mut F,
    console: &mut Console<'_, O, E>,
) -> Result<u8, Stop>
    requires faults { (F.seen files.old).faults < 2 ^ 64 - 1 }
    requires opens { (F.seen files.old).opens ≡ 0 }
    requires out { (O.seen console.old.out.now).faults < 2 ^ 64 - 1 }
    requires err { (E.seen console.old.err.now).faults < 2 ^ 64 - 1 }
    ensures same { IsSame console.old console.new }
    ensures runs { RunsWords (names words.now) (F.seen files.old) (F.seen files.new) result
        (sinks_of O.seen E.seen console.old) (sinks_of O.seen E.seen console.new) }
{
    if !is_reading(words) {
        return tell_usage(console);
    }
    let mut progress = start(alloc, keeps_on(words))?;
    run_files(alloc, file_words(words), &mut progress, files, console)?;
    Ok(end_code(progress.first))
}

/// Runs the words, and answers the status.
fn answer<F: Files, O: Sink, E: Sink>(
    alloc: Global,
    words: &[String],
    files: &mut F,
    console: &mut Console<'_, O, E>,
) -> u8
    requires faults { (F.seen files.old).faults < 2 ^ 64 - 1 }
    requires opens { (F.seen files.old).opens ≡ 0 }
    requires out { (O.seen console.old.out.now).faults < 2 ^ 64 - 1 }
    requires err { (E.seen console.old.err.now).faults < 2 ^ 64 - 1 }
    ensures same { IsSame console.old console.new }
    ensures any { AnswersAny (names words.now) (F.seen files.old) (F.seen files.new) result
        (sinks_of O.seen E.seen console.old) (sinks_of O.seen E.seen console.new) }
    ensures opens { OpensNoMore (names words.now) (F.seen files.new) }
{
    match run_words(alloc, words, files, console) {
        Ok(code) => code,
        Err(stop) => stop.code(),
    }
}

/// Runs a command line over files that none was opened of, and answers the status.
pub fn run<F: Files, O: Sink, E: Sink>(
    alloc: Global,
    words: &[String],
    files: &mut F,
    out: &mut O,
    err: &mut E,
) -> u8
    requires faults { (F.seen files.old).faults < 2 ^ 64 - 1 }
    requires opens { (F.seen files.old).opens ≡ 0 }
    requires out { (O.seen out.old).faults < 2 ^ 64 - 1 }
    requires err { (E.seen err.old).faults < 2 ^ 64 - 1 }
    // Over files that tell their texts.
    ensures told { IfSome (F.seen files.old).texts (λ texts. Answers
        (Starts (names words.now) (gave (F.seen files.old) (F.seen files.new) (map (input_of texts) (file_words (names words.now)))))
        result
        (sinks (O.seen out.old) (E.seen err.old)) (sinks (O.seen out.new) (E.seen err.new))) }
    // Over any files, whatever they gave.
    ensures any { AnswersAny (names words.now) (F.seen files.old) (F.seen files.new) result
        (sinks (O.seen out.old) (E.seen err.old)) (sinks (O.seen out.new) (E.seen err.new)) }
    ensures opens { OpensNoMore (names words.now) (F.seen files.new) }
{
    let mut console = Console { out, err };
    answer(alloc, words, files, &mut console)
}

/// What a run shows is sound.
pub fn runs_are_sound()
    ensures { RunsAreSound }
{}

/// One run at most is stated.
pub fn one_run()
    ensures { OneRun }
{}

/// The causes of the answers 64 and 4.
pub fn answers_have_causes()
    ensures { AnswersHaveCauses }
{}
