//! The caller's thread finishes what the workers have left.

ghost use Rattle.std.specs.Prelude.{◌≡◌, ◌≤◌, List, length, IfOk};
ghost use Rattle.pact_operators.specs.Allowed.{Bag};
ghost use Rattle.pact_operators.specs.Inputs.{AreInputsOf};
ghost use Rattle.pact_operators.specs.Programs.{IsPlanOf};
ghost use Rattle.flow_instance.specs.Limits.{batch_limit};
ghost use Rattle.flow_instance.specs.Spots.{Setting, setting};
ghost use Rattle.flow_core.specs.Worlds.{IsStanding, StandsForSome, depth_limit};
ghost use Rattle.flow_run.specs.Outcomes.{IsPlanOutcome};
ghost use Rattle.flow_run.specs.WorkerData.{AreLocal, AreLocalForSome, HaveReturned, history_of};
ghost use Rattle.flow_run.specs.Workers.{all_data};

use crate::arranging::arrange;
use crate::gathers::gather;
use crate::options::Options;
use crate::tables::Tables;
use crate::workers::Worker;
use batch_channel::{Pipe, Width};
use flow_core::{World, run_alone};
use local_strategy::Local;
use pact_bag::Outcome;
use pact_operators::{Physical, Program};
use pact_record::OutOfMemory;
use std::alloc::Global;
use std::sync::Wait;

/// The world of the workers' instances and of the notes that are left on the pipes. It represents the notes that the
/// workers' ends have put and taken.
pub(crate) fn resume_workers<L: Local, W: Width, R: Wait>(
    rt: &R,
    alloc: Global,
    program: &Program,
    physical: &Physical,
    pipes: Tables<Pipe<W>>,
    workers: Vec<Worker<L, W>>,
    options: Options,
) -> Result<World<L>, OutOfMemory>
    requires plan { IsPlanOf program.now.functions program.now.ops physical.now.tree }
    requires returned { HaveReturned physical.now (length program.now.ops) pipes (all_data workers.items) }
    requires local { AreLocalForSome program.now physical.now (all_data workers.items) }
    requires batch { (1 ≤ options.batch) × (options.batch ≤ batch_limit) }
    requires depth { (1 ≤ options.depth) × (options.depth ≤ depth_limit) }
    ensures standing { IfOk result (λ w. (g : Setting) → g.physical ≡ physical.now
        → AreLocal g (all_data workers.items) → IsStanding g w (history_of (all_data workers.items))) }
    ensures stands { IfOk result StandsForSome }
    ensures physical { IfOk result (λ w. w.physical ≡ physical.now) }
    ensures depth { IfOk result (λ w. w.depth ≡ options.depth) }
{
    // `workers` makes it known that this is a physical plan.
    let _workers = physical.workers();
    let mut workers = workers;
    let count = program.ops().len();
    let notes = gather(rt, alloc, count as u32, pipes, &mut workers)?;
    let instances = arrange(alloc, count, workers)?;
    let (batch, depth) = (options.batch, options.depth);
    World::resume(alloc, program, physical, instances, notes, batch, depth)
}

/// The result of the run: the caller's thread goes on until every instance is done.
pub(crate) fn finish<L: Local, W: Width, R: Wait>(
    rt: &R,
    alloc: Global,
    program: &Program,
    physical: &Physical,
    pipes: Tables<Pipe<W>>,
    workers: Vec<Worker<L, W>>,
    options: Options,
) -> Result<Outcome, OutOfMemory>
    requires plan { IsPlanOf program.now.functions program.now.ops physical.now.tree }
    requires returned { HaveReturned physical.now (length program.now.ops) pipes (all_data workers.items) }
    requires local { AreLocalForSome program.now physical.now (all_data workers.items) }
    requires batch { (1 ≤ options.batch) × (options.batch ≤ batch_limit) }
    requires depth { (1 ≤ options.depth) × (options.depth ≤ depth_limit) }
    ensures { (inputs : List Bag) → AreInputsOf program.now inputs
        → AreLocal (setting program.now inputs physical.now) (all_data workers.items)
        → IfOk result (IsPlanOutcome program.now inputs physical.now) }
{
    // `fields` makes it known that this is a program.
    let _fields = program.fields();
    let world: World<L> = resume_workers(rt, alloc, program, physical, pipes, workers, options)?;
    run_alone(world)
}
