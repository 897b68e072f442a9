//! Writing pieces.
ghost use Rattle.std.specs.Prelude.{◌-◌, ◌^◌, ◌<◌, [], ◌∷◌};
ghost use Rattle.isa_check.specs.Run.{stop, told, told_all};
ghost use Rattle.isa_check.specs.Does.{code_of, sinks, Does};

use crate::line::line_of;
use crate::status::{Status, Stop};
use isa_cert::Accepted;
use isa_io::{Sink, write_all};
use std::alloc::Global;

/// Writes a piece to out.
fn print<O: Sink, E: Sink>(piece: &[u8], out: &mut O, err: &mut E) -> Result<(), Stop>
    requires out { (O.seen out.old).faults < 2 ^ 64 - 1 }
    ensures { Does (told piece.now) result
        (sinks (O.seen out.old) (E.seen err.old)) (sinks (O.seen out.new) (E.seen err.new)) }
{
    write_all(out, piece)?;
    Ok(())
}

/// Writes a message to err, and stops the run.
#[tactic(auto, using(crate::proofs::Printing::memory_does))]
pub(crate) fn report<O: Sink, E: Sink>(
    alloc: Global,
    status: Status,
    message: &str,
    out: &mut O,
    err: &mut E,
) -> Result<(), Stop>
    requires err { (E.seen err.old).faults < 2 ^ 64 - 1 }
    ensures { Does (stop (code_of status) message.now) result
        (sinks (O.seen out.old) (E.seen err.old)) (sinks (O.seen out.new) (E.seen err.new)) }
{
    let piece = format!(in alloc; "{message}\n")?;
    write_all(err, piece.as_bytes())?;
    Err(Stop::Ended(status))
}

/// Writes the line of an accepted theorem to out.
#[tactic(auto, using(crate::proofs::Printing::memory_does))]
fn print_one<O: Sink, E: Sink>(
    alloc: Global,
    accepted: &Accepted,
    out: &mut O,
    err: &mut E,
) -> Result<(), Stop>
    requires out { (O.seen out.old).faults < 2 ^ 64 - 1 }
    ensures { Does (told_all (accepted.now ∷ [])) result
        (sinks (O.seen out.old) (E.seen err.old)) (sinks (O.seen out.new) (E.seen err.new)) }
{
    let line = line_of(alloc, accepted)?;
    print(line.as_slice(), out, err)
}

/// Writes the lines of accepted theorems to out.
pub(crate) fn print_all<O: Sink, E: Sink>(
    alloc: Global,
    list: &[Accepted],
    out: &mut O,
    err: &mut E,
) -> Result<(), Stop>
    requires out { (O.seen out.old).faults < 2 ^ 64 - 1 }
    ensures { Does (told_all list.now) result
        (sinks (O.seen out.old) (E.seen err.old)) (sinks (O.seen out.new) (E.seen err.new)) }
{
    for accepted in list {
        print_one(alloc, accepted, out, err)?;
    }
    Ok(())
}
