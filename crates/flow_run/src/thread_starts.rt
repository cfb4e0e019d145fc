//! Instances that start on threads.

ghost use Rattle.std.specs.Prelude.{◌≡◌, ◌≤◌, Ok, IfOk, length, map};
ghost use Rattle.std.specs.List.{AllByRecursion};
ghost use Rattle.pact_operators.specs.Inputs.{AreInputsOf};
ghost use Rattle.pact_operators.specs.Programs.{IsPlanOf};
ghost use Rattle.flow_core.specs.Starting.{AreAllStarted, CanStartEach, StartAllFrom, StartFrom};
ghost use Rattle.flow_instance.specs.Limits.{batch_limit};
ghost use Rattle.flow_instance.specs.Spots.{setting};
ghost use Rattle.flow_instance.specs.Starting.{CanStart, IsStartedFrom};

use flow_core::{InstanceList, Instances, UnstartedInstances, all_unstarted, start_in_turn};
use flow_instance::{Instance, Unstarted};
use local_strategy::Local;
use pact_bag::Inputs;
use pact_operators::{Physical, Program};
use pact_record::OutOfMemory;
use std::alloc::Global;
use std::thread;
use std::thread::Threads;

// If no worker has this many rows of a source, starting threads takes longer than cutting the rows into batches.
const LONG_SHARE: usize = 2048;

// The instances of one source or operator, if all of them were started.
fn all_started<L: Local>(
    alloc: Global,
    started: Vec<Result<Instance<L>, OutOfMemory>>,
) -> Result<Instances<L>, OutOfMemory>
    ensures { IfOk result (λ own. started.items ≡ map Ok own) }
{
    let mut held = Vec::new(alloc);
    for one in started {
        held.push(one?)?;
    }
    Ok(Instances::from_vec(held))
}

// The instances of one source or operator, each started on a thread of its own if the system provides one.
fn start_side_by_side<L: Local, R: Threads + Sync>(
    rt: &R,
    alloc: Global,
    own: UnstartedInstances,
) -> Result<Instances<L>, OutOfMemory>
    requires may { CanStartEach own }
    ensures { IfOk result (StartFrom own.held.items) }
{
    let jobs = own.into_vec();
    let started = thread::map_vec(
        rt,
        jobs,
        &|unstarted: Unstarted| -> Result<Instance<L>, OutOfMemory>
            requires { CanStart unstarted }
            ensures { IfOk result (IsStartedFrom unstarted) }
        { Instance::start_from(alloc, unstarted) },
    )?;
    all_started(alloc, started)
}

// The instances of one source or operator. Those of a source with many rows start on threads, since each cuts its rows
// into batches.
fn start_op<L: Local, R: Threads + Sync>(
    rt: &R,
    alloc: Global,
    own: UnstartedInstances,
) -> Result<Instances<L>, OutOfMemory>
    requires may { CanStartEach own }
    ensures { IfOk result (StartFrom own.held.items) }
{
    if own.share_len() < LONG_SHARE {
        return start_in_turn(alloc, own);
    }
    start_side_by_side(rt, alloc, own)
}

// The instances of all sources and operators at their start.
fn start_all<L: Local, R: Threads + Sync>(
    rt: &R,
    alloc: Global,
    unstarted: Vec<UnstartedInstances>,
) -> Result<InstanceList<L>, OutOfMemory>
    requires may { AllByRecursion CanStartEach unstarted.items }
    ensures { IfOk result (StartAllFrom unstarted.items) }
{
    let mut all = Vec::with_capacity(alloc, unstarted.len())?;
    for own in unstarted {
        all.push_reserved(start_op(rt, alloc, own)?);
    }
    Ok(InstanceList::from_vec(all))
}

/// The plan's instances at their start, as `start_instances` of `flow_core` makes them. Those of a long source start on
/// threads.
pub(crate) fn start_on_threads<L: Local, R: Threads + Sync>(
    rt: &R,
    alloc: Global,
    program: &Program,
    physical: &Physical,
    inputs: Inputs,
    batch: u32,
) -> Result<InstanceList<L>, OutOfMemory>
    requires plan { IsPlanOf program.now.functions program.now.ops physical.now.tree }
    requires inputs { AreInputsOf program.now inputs }
    requires batch { (1 ≤ batch) × (batch ≤ batch_limit) }
    ensures { IfOk result (AreAllStarted (setting program.now inputs physical.now) batch (length program.now.ops)) }
{
    let unstarted = all_unstarted(alloc, program, physical, inputs, batch)?;
    start_all(rt, alloc, unstarted)
}
