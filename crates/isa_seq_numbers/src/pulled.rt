//! The events of an expression on a number.
#![tactic(auto)]

ghost use Rattle.std.specs.Prelude.{IfOk};
ghost use Rattle.isa_seq.specs.Tactics.{trace};
ghost use Rattle.isa_seq_numbers.specs.Numbers.{steps};
ghost use Rattle.isa_seq_numbers.specs.Pulled.{BeginsWith};

use crate::prims::{Numbers, Step};
use isa_seq::{Event, Machine, Tac};
use std::alloc::{AllocError, Global};

/// At most so many events of the trace of an expression on a number, pulled one at a time.
pub fn events(
    alloc: Global,
    tac: &Tac<Step>,
    state: u64,
    limit: usize,
) -> Result<Vec<Event<u64>>, AllocError>
    ensures { IfOk result (λ events. BeginsWith (trace steps tac.now.node.value state 1) limit events.items) }
{
    let mut machine = Machine::start(alloc, &Numbers, tac, &state)?;
    let mut events = Vec::new(alloc);
    for _pulled in 0..limit {
        let Some(event) = machine.pull(alloc, &Numbers)? else {
            return Ok(events);
        };
        events.push(event)?;
    }
    Ok(events)
}
