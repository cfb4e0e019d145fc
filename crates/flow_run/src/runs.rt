//! Runs of a plan.

ghost use Rattle.std.specs.Prelude.{◌≡◌, ◌≤◌, IfOk};
ghost use Rattle.pact_operators.specs.Inputs.{AreInputsOf};
ghost use Rattle.pact_operators.specs.Programs.{IsPlanOf};
ghost use Rattle.flow_instance.specs.Limits.{batch_limit};
ghost use Rattle.flow_core.specs.Worlds.{depth_limit};
ghost use Rattle.flow_run.specs.Outcomes.{IsPlanOutcome};

use crate::assigning::assign;
use crate::finishing::finish;
use crate::options::Options;
use crate::schedules::{work_in_turn, work_side_by_side};
use crate::thread_starts::start_on_threads;
use crate::wires::Network;
use batch_channel::Width;
use flow_core::{World, run_alone, start_instances};
use local_strategy::Local;
use pact_bag::{Inputs, Outcome};
use pact_operators::{Physical, Program};
use pact_record::OutOfMemory;
use std::alloc::Global;
use std::marker::Brand;
use std::sync::Wait;
use std::thread::Threads;
use worker_gate::{Flags, Gate};

/// Runs a plan on the caller's thread, which steps the instances of all its workers. It starts no thread and waits for
/// none. It ignores `options.workers`: the plan has its number of workers. A batch has 1 to 1,024 records, and a pipe
/// holds 1 to 64 notes. The rows of the sources are given away: each moves to its worker.
///
/// Out of memory is the only error. A run also reports it after 2^64 - 1 events, more than any machine gets through.
pub fn run_on_one<L: Local>(
    alloc: Global,
    program: &Program,
    physical: &Physical,
    inputs: Inputs,
    options: Options,
) -> Result<Outcome, OutOfMemory>
    requires plan { IsPlanOf program.now.functions program.now.ops physical.now.tree }
    requires inputs { AreInputsOf program.now inputs }
    requires batch { (1 ≤ options.batch) × (options.batch ≤ batch_limit) }
    requires depth { (1 ≤ options.depth) × (options.depth ≤ depth_limit) }
    ensures { IfOk result (IsPlanOutcome program.now inputs physical.now) }
{
    // `fields` makes it known that this is a program.
    let _fields = program.fields();
    let (batch, depth) = (options.batch, options.depth);
    let world: World<L> = World::start_owned(alloc, program, physical, inputs, batch, depth)?;
    run_alone(world)
}

// The run on threads. The type W has the number of fields of its records.
fn run_on_threads<L: Local, W: Width + Sync + Send, R: Threads + Wait + Sync, G: Gate>(
    rt: &R,
    alloc: Global,
    program: &Program,
    physical: &Physical,
    inputs: Inputs,
    options: Options,
    gate: &G,
) -> Result<Outcome, OutOfMemory>
    requires width { W.fields ≡ program.now.fields }
    requires plan { IsPlanOf program.now.functions program.now.ops physical.now.tree }
    requires inputs { AreInputsOf program.now inputs }
    requires batch { (1 ≤ options.batch) × (options.batch ≤ batch_limit) }
    requires depth { (1 ≤ options.depth) × (options.depth ≤ depth_limit) }
    ensures { IfOk result (IsPlanOutcome program.now inputs physical.now) }
{
    let flags = Flags::new(physical.workers());
    let list = start_on_threads(rt, alloc, program, physical, inputs, options.batch)?;
    let network = assign::<L, W, R>(rt, alloc, program, physical, list, options.depth)?;
    let Network { workers, pipes } = network;
    let after = work_side_by_side(rt, alloc, gate, workers, &pipes, &flags)?;
    finish(rt, alloc, program, physical, pipes, after, options)
}

// The run with one worker after the other. The type W has the number of fields of its records.
fn run_turns<L: Local, W: Width, R: Wait, G: Gate>(
    rt: &R,
    alloc: Global,
    program: &Program,
    physical: &Physical,
    inputs: Inputs,
    options: Options,
    gate: &G,
) -> Result<Outcome, OutOfMemory>
    requires width { W.fields ≡ program.now.fields }
    requires plan { IsPlanOf program.now.functions program.now.ops physical.now.tree }
    requires inputs { AreInputsOf program.now inputs }
    requires batch { (1 ≤ options.batch) × (options.batch ≤ batch_limit) }
    requires depth { (1 ≤ options.depth) × (options.depth ≤ depth_limit) }
    ensures { IfOk result (IsPlanOutcome program.now inputs physical.now) }
{
    let flags = Flags::new(physical.workers());
    let list = start_instances(alloc, program, physical, inputs, options.batch)?;
    let network = assign::<L, W, R>(rt, alloc, program, physical, list, options.depth)?;
    let Network { workers, pipes } = network;
    let after = work_in_turn(rt, gate, workers, &pipes, &flags)?;
    finish(rt, alloc, program, physical, pipes, after, options)
}

/// Runs a plan. With two workers or more, each has a thread of its own and gets its instances and its ends of the
/// pipes. When all have returned, the caller's thread finishes what they have left. With one worker the plan runs on
/// the caller's thread from the start, and waits for no other. A worker calls the gate before each attempt to put or to
/// take a note, and before an instance ends; the caller's thread never calls it. The rows of the sources are given
/// away: each moves to its worker.
///
/// Out of memory is the only error, whether a worker or the caller runs out of it. All results are gone then.
pub fn run_owned<L: Local, R: Threads + Wait + Sync, G: Gate>(
    rt: &R,
    alloc: Global,
    program: &Program,
    physical: &Physical,
    inputs: Inputs,
    options: Options,
    gate: &G,
) -> Result<Outcome, OutOfMemory>
    requires plan { IsPlanOf program.now.functions program.now.ops physical.now.tree }
    requires inputs { AreInputsOf program.now inputs }
    requires workers { options.workers ≡ physical.now.workers }
    requires batch { (1 ≤ options.batch) × (options.batch ≤ batch_limit) }
    requires depth { (1 ≤ options.depth) × (options.depth ≤ depth_limit) }
    ensures { IfOk result (IsPlanOutcome program.now inputs physical.now) }
{
    if options.workers == 1 {
        return run_on_one::<L>(alloc, program, physical, inputs, options);
    }
    run_on_threads::<L, Brand, R, G>(rt, alloc, program, physical, inputs, options, gate)
}

/// Like `run_owned`, but the rows are lent, and each is copied once.
pub fn run<L: Local, R: Threads + Wait + Sync, G: Gate>(
    rt: &R,
    alloc: Global,
    program: &Program,
    physical: &Physical,
    inputs: &Inputs,
    options: Options,
    gate: &G,
) -> Result<Outcome, OutOfMemory>
    requires plan { IsPlanOf program.now.functions program.now.ops physical.now.tree }
    requires inputs { AreInputsOf program.now inputs.now }
    requires workers { options.workers ≡ physical.now.workers }
    requires batch { (1 ≤ options.batch) × (options.batch ≤ batch_limit) }
    requires depth { (1 ≤ options.depth) × (options.depth ≤ depth_limit) }
    ensures { IfOk result (IsPlanOutcome program.now inputs.now physical.now) }
{
    let copied = inputs.copy(alloc)?;
    run_owned::<L, R, G>(rt, alloc, program, physical, copied, options, gate)
}

/// Like `run`, but it starts no thread, and a single worker works as one of several does. The first worker works on the
/// caller's thread until its instances are done or it leaves, then the second one, and so on. A worker that waits for
/// another's note leaves after 4,096 turns without an event, or after one if another has left before it. So they mostly
/// leave much, which is finished as in `run`.
///
/// Out of memory is the only error. Like `run`, it promises nothing if it doesn't return: its pipes are those that
/// threads share.
pub fn run_in_turn<L: Local, R: Wait, G: Gate>(
    rt: &R,
    alloc: Global,
    program: &Program,
    physical: &Physical,
    inputs: &Inputs,
    options: Options,
    gate: &G,
) -> Result<Outcome, OutOfMemory>
    requires plan { IsPlanOf program.now.functions program.now.ops physical.now.tree }
    requires inputs { AreInputsOf program.now inputs.now }
    requires workers { options.workers ≡ physical.now.workers }
    requires batch { (1 ≤ options.batch) × (options.batch ≤ batch_limit) }
    requires depth { (1 ≤ options.depth) × (options.depth ≤ depth_limit) }
    ensures { IfOk result (IsPlanOutcome program.now inputs.now physical.now) }
{
    let copied = inputs.copy(alloc)?;
    run_turns::<L, Brand, R, G>(rt, alloc, program, physical, copied, options, gate)
}
