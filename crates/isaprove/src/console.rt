//! The console: the two sinks that a run writes to.
ghost use Rattle.std.specs.Prelude.{◌-◌, ◌^◌, ◌<◌};
ghost use Rattle.isaprove.specs.Sinks.{sinks_of, IsSame};
ghost use Rattle.isaprove.specs.Does.{Shows, Tells};

use crate::status::Stop;
use isa_io::{Sink, write_all};

/// The sinks for what commands show, and for why they are not accepted.
#[derive(Drop)]
pub struct Console<'a, O: Sink, E: Sink> {
    pub out: &'a mut O,
    pub err: &'a mut E,
}

impl<O: Sink, E: Sink> Console<'_, O, E> {
    /// Prints a piece to out.
    pub fn print(&mut self, piece: &[u8]) -> Result<(), Stop>
        requires { (O.seen self.old.out.now).faults < 2 ^ 64 - 1 }
        ensures same { IsSame self.old self.new }
        ensures shows { Shows piece.now result (sinks_of O.seen E.seen self.old) (sinks_of O.seen E.seen self.new) }
    {
        write_all(&mut *self.out, piece)?;
        Ok(())
    }

    /// Prints a line, with its line feed, to err.
    pub fn tell(&mut self, line: &[u8]) -> Result<(), Stop>
        requires { (E.seen self.old.err.now).faults < 2 ^ 64 - 1 }
        ensures same { IsSame self.old self.new }
        ensures tells { Tells line.now result (sinks_of O.seen E.seen self.old) (sinks_of O.seen E.seen self.new) }
    {
        write_all(&mut *self.err, line)?;
        Ok(())
    }
}
