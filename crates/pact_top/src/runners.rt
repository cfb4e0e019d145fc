//! What runs a plan.

ghost use Rattle.std.specs.Prelude.{IfOk};
ghost use Rattle.flow_run.specs.Outcomes.{IsPlanOutcome};
ghost use Rattle.pact_top.specs.Runs.{CanRun, IsRunner};

use crate::strategies::run_by_strategy;
use pact_bag::{Inputs, Outcome};
use pact_operators::{Physical, Program};
use pact_record::OutOfMemory;
use pact_words::Options;
use std::alloc::Global;

/// What runs a plan, on the calling thread or on several.
pub trait Runner {
    /// What must hold of it before a run. If it calls a function: that this can be called, and leaves what a run leaves.
    ghost ready: { Self → Type 0 };

    /// The rows of a run of the plan, and how many records each source and operator gave. The run consumes the rows of
    /// the sources. Out of memory is the only error.
    fn run(
        &self,
        program: &Program,
        physical: &Physical,
        inputs: Inputs,
        options: Options,
    ) -> Result<Outcome, OutOfMemory>
        requires ready { ready self.now }
        requires can { CanRun program.now physical.now inputs options }
        ensures { IfOk result (IsPlanOutcome program.now inputs physical.now) };
}

/// Runs on the calling thread.
#[derive(Drop)]
pub struct RunAlone {
    pub alloc: Global,
}

impl Runner for RunAlone {
    ghost ready = { λ r. Unit {0} };

    fn run(
        &self,
        program: &Program,
        physical: &Physical,
        inputs: Inputs,
        options: Options,
    ) -> Result<Outcome, OutOfMemory> {
        run_by_strategy(self.alloc, program, physical, inputs, options)
    }
}

/// Runs by a call. What runs on threads is called: the bounds of an `impl` count for the calling thread alone.
#[derive(Drop)]
pub struct CalledRuns<C: Fn(&Program, &Physical, Inputs, Options) -> Result<Outcome, OutOfMemory>> {
    pub call: C,
}

impl<C: Fn(&Program, &Physical, Inputs, Options) -> Result<Outcome, OutOfMemory>> Runner
    for CalledRuns<C> {
    ghost ready = { λ r. IsRunner (C.pre r.call) (C.post r.call) };

    fn run(
        &self,
        program: &Program,
        physical: &Physical,
        inputs: Inputs,
        options: Options,
    ) -> Result<Outcome, OutOfMemory> {
        (self.call)(program, physical, inputs, options)
    }
}
