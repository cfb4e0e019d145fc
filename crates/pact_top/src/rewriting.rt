//! A plan, rewritten by each step that is asked for, and then run once.

ghost use Rattle.std.specs.Prelude.{◌≡◌, IfOk};
ghost use Rattle.combine_rule.specs.CombinedPrograms.{planned};
ghost use Rattle.pact_operators.specs.Inputs.{AreInputsOf};
ghost use Rattle.pact_operators.specs.Programs.{IsPlanOf};
ghost use Rattle.pact_words.specs.Words.{AreOptionsInRange};
ghost use Rattle.ship_strategy.specs.PlanFacts.{facts_of};
ghost use Rattle.ship_strategy.specs.Ships.{LegalShip};
ghost use Rattle.pact_top.specs.Runs.{IsCombinedAs, IsPrunedAs, IsRunOutcome};

use crate::runners::Runner;
use combine_rule::{Combined, combine};
use pact_bag::{Inputs, Outcome};
use pact_operators::{Physical, Program};
use pact_record::OutOfMemory;
use pact_words::{Options, Rewrites};
use prune_fields::{Kept, Pruned, prune};
use std::alloc::Global;

/// What a run gave. `kept` has the number of each source or operator whose records were cut, with the fields that were
/// kept. `combined` pairs each operator that made partial groups with the operator that merged them.
#[derive(Drop)]
pub struct RunOutcome {
    pub outcome: Outcome,
    pub kept: Vec<Kept>,
    pub combined: Vec<(u32, u32)>,
}

// The program and its plan with fields dropped if that is asked for, and as they are otherwise.
fn prune_if(
    alloc: Global,
    program: &Program,
    physical: &Physical,
    asked: bool,
) -> Result<(Program, Physical, Vec<Kept>), OutOfMemory>
    requires plan { IsPlanOf program.now.functions program.now.ops physical.now.tree }
    requires legal { LegalShip (facts_of program.now physical.now.tree) physical.now }
    ensures { IfOk result (λ r. IsPrunedAs asked (planned program.now physical.now) (planned r.0 r.1) r.2.items) }
{
    if asked {
        let Pruned {
            program,
            physical,
            kept,
        } = prune(alloc, program, physical)?;
        Ok((program, physical, kept))
    } else {
        Ok((program.copy(alloc)?, *physical, Vec::new(alloc)))
    }
}

// The program and its plan with partial groups if these are asked for, and as they are otherwise.
fn combine_if(
    alloc: Global,
    program: &Program,
    physical: &Physical,
    asked: bool,
) -> Result<(Program, Physical, Vec<(u32, u32)>), OutOfMemory>
    requires plan { IsPlanOf program.now.functions program.now.ops physical.now.tree }
    ensures { IfOk result (λ r. IsCombinedAs asked (planned program.now physical.now) (planned r.0 r.1) r.2.items) }
{
    if asked {
        let Combined {
            program,
            physical,
            of,
        } = combine(alloc, program, physical)?;
        Ok((program, physical, of))
    } else {
        Ok((program.copy(alloc)?, *physical, Vec::new(alloc)))
    }
}

/// Runs the plan with the rewrites that are asked for: first fields are dropped, then partial groups are inserted.
pub fn run_rewritten<T: Runner>(
    alloc: Global,
    program: &Program,
    physical: &Physical,
    inputs: Inputs,
    options: Options,
    rewrites: Rewrites,
    runner: &T,
) -> Result<RunOutcome, OutOfMemory>
    requires plan { IsPlanOf program.now.functions program.now.ops physical.now.tree }
    requires legal { LegalShip (facts_of program.now physical.now.tree) physical.now }
    requires inputs { AreInputsOf program.now inputs }
    requires workers { options.workers ≡ physical.now.workers }
    requires options { AreOptionsInRange options }
    requires runs { T.ready runner.now }
    ensures { IfOk result (IsRunOutcome (planned program.now physical.now) inputs rewrites.prune rewrites.combine) }
{
    let (pruned, small, kept) = prune_if(alloc, program, physical, rewrites.prune)?;
    let (rewritten, last, combined) = combine_if(alloc, &pruned, &small, rewrites.combine)?;
    let outcome = runner.run(&rewritten, &last, inputs, options)?;
    Ok(RunOutcome {
        outcome,
        kept,
        combined,
    })
}
