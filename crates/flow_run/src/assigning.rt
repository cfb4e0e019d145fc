//! Instances at their start are assigned to the workers.

ghost use Rattle.std.specs.Prelude.{◌≡◌, ◌≤◌, ℕ, List, length, IfOk, OnOk};
ghost use Rattle.pact_operators.specs.Allowed.{Bag};
ghost use Rattle.pact_operators.specs.Programs.{IsPlanOf};
ghost use Rattle.flow_instance.specs.Spots.{setting};
ghost use Rattle.flow_core.specs.Starting.{AreAllStarted, AreStartedForSome};
ghost use Rattle.flow_core.specs.Worlds.{depth_limit};
ghost use Rattle.flow_run.specs.Runs.{AreAssigned};
ghost use Rattle.flow_run.specs.WorkerData.{with_column};
ghost use Rattle.flow_run.specs.Wires.{KeepEnds, instances_in};

use crate::wires::{Network, wire};
use crate::workers::Worker;
use batch_channel::Width;
use flow_core::InstanceList;
use flow_instance::Instance;
use local_strategy::Local;
use pact_operators::{Physical, Program};
use pact_record::OutOfMemory;
use std::alloc::Global;
use std::sync::Wait;

// Gives each worker the instance at its place: those of the next source or operator.
fn assign_op<L: Local, W: Width>(
    workers: &mut [Worker<L, W>],
    own: Vec<Instance<L>>,
) -> Result<(), OutOfMemory>
    requires { length own.items ≡ length workers.old }
    ensures instances { OnOk result (instances_in workers.new ≡ with_column (instances_in workers.old) own.items) }
    ensures kept { OnOk result (KeepEnds workers.old workers.new) }
{
    let mut at: usize = 0;
    for instance in own {
        workers[at].instances.push(instance)?;
        at += 1;
    }
    Ok(())
}

/// Workers with these instances, which are at their start, and with their ends of the pipes. Each pipe holds at most
/// `depth` notes.
pub(crate) fn assign<L: Local, W: Width, R: Wait>(
    rt: &R,
    alloc: Global,
    program: &Program,
    physical: &Physical,
    list: InstanceList<L>,
    depth: u32,
) -> Result<Network<L, W>, OutOfMemory>
    requires width { W.fields ≡ program.now.fields }
    requires plan { IsPlanOf program.now.functions program.now.ops physical.now.tree }
    requires started { AreStartedForSome program.now physical.now list }
    requires depth { (1 ≤ depth) × (depth ≤ depth_limit) }
    ensures { IfOk result (λ n. (inputs : List Bag) (size : ℕ)
        → AreAllStarted (setting program.now inputs physical.now) size (length program.now.ops) list
        → AreAssigned (setting program.now inputs physical.now) (length program.now.ops) W.fields n.pipes
        n.workers.items) }
{
    // `workers` makes it known that this is a physical plan.
    let (ops, _workers) = (program.ops(), physical.workers());
    let mut list = list;
    let mut network = wire::<L, W, R>(rt, alloc, physical, ops.len() as u32, depth)?;
    for at in 0..ops.len() {
        let own = list.take(alloc, at);
        assign_op(&mut network.workers, own)?;
    }
    Ok(network)
}
