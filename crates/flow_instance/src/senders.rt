//! The senders of a port.

ghost use Rattle.std.specs.Prelude.{IfOk};
ghost use Rattle.flow_instance.specs.States.{AreFlagsOf};

use crate::parts::Part;
use pact_record::OutOfMemory;
use plan_trees::EndedSenders;
use std::alloc::Global;

/// The senders of a port before any note has come. A port that doesn't exist has none.
pub(crate) fn senders_at(
    alloc: Global,
    part: &Part,
    port: usize,
) -> Result<EndedSenders, OutOfMemory>
    ensures { IfOk result (AreFlagsOf part.now port) }
{
    let edge = match part.ports.get(port) {
        Some(port) => Some(port.ship),
        None => None,
    };
    EndedSenders::along(alloc, edge, part.workers, part.worker)
}
