//! Runs of a physical plan with the local strategy that the options name, on the calling thread or on several.

ghost use Rattle.std.specs.Prelude.{◌≡◌, IfOk};
ghost use Rattle.flow_run.specs.Outcomes.{IsPlanOutcome};
ghost use Rattle.pact_top.specs.Runs.{CanRun, run_options};

use flow_run::{run_on_one, run_owned};
use group_table::GroupTable;
use pact_bag::{Inputs, Outcome};
use pact_operators::{Physical, Program};
use pact_record::OutOfMemory;
use pact_words::{LocalStrategy, Options};
use sort_local::SortLocal;
use std::alloc::Global;
use std::sync::Wait;
use std::thread::Threads;
use worker_gate::Gate;

// The options that `flow_run` knows: the number of workers, the most records in a batch and the most notes in a pipe.
fn run_options(options: Options) -> flow_run::Options
    ensures { result ≡ run_options options }
{
    flow_run::Options {
        workers: options.workers,
        batch: options.batch,
        depth: options.depth,
    }
}

/// The rows of a run, and how many records each source and operator gave. The calling thread steps the instances of all
/// workers, so the run waits for no other thread. It consumes the rows of the sources.
pub fn run_by_strategy(
    alloc: Global,
    program: &Program,
    physical: &Physical,
    inputs: Inputs,
    options: Options,
) -> Result<Outcome, OutOfMemory>
    requires { CanRun program.now physical.now inputs options }
    ensures { IfOk result (IsPlanOutcome program.now inputs physical.now) }
{
    let own = run_options(options);
    match options.local {
        LocalStrategy::Hash => run_on_one::<GroupTable>(alloc, program, physical, inputs, own),
        LocalStrategy::Sort => run_on_one::<SortLocal>(alloc, program, physical, inputs, own),
    }
}

/// The rows of a run with a thread for each worker, and how many records each source and operator gave. A single worker
/// has none: its run is that of `run_by_strategy`. It consumes the rows of the sources.
pub fn run_by_strategy_on_threads<R: Threads + Wait + Sync, G: Gate>(
    rt: &R,
    alloc: Global,
    program: &Program,
    physical: &Physical,
    inputs: Inputs,
    options: Options,
    gate: &G,
) -> Result<Outcome, OutOfMemory>
    requires { CanRun program.now physical.now inputs options }
    ensures { IfOk result (IsPlanOutcome program.now inputs physical.now) }
{
    let own = run_options(options);
    match options.local {
        LocalStrategy::Hash => {
            run_owned::<GroupTable, R, G>(rt, alloc, program, physical, inputs, own, gate)
        }
        LocalStrategy::Sort => {
            run_owned::<SortLocal, R, G>(rt, alloc, program, physical, inputs, own, gate)
        }
    }
}
