//! The instances of a plan at their start.

ghost use Rattle.std.specs.Prelude.{◌≡◌, ◌≤◌, ◌<◌, ◌∷◌, ℕ, [], List, true, false, length, IfOk};
ghost use Rattle.std.specs.List.{AllByRecursion};
ghost use Rattle.pact_operators.specs.Allowed.{Bag};
ghost use Rattle.pact_operators.specs.Inputs.{AreInputsOf};
ghost use Rattle.pact_operators.specs.PlanOps.{is_source_kind, kind_at};
ghost use Rattle.pact_operators.specs.Programs.{IsPlanOf, ProgramData};
ghost use Rattle.plan_trees.specs.Physicals.{PhysicalData};
ghost use Rattle.pact_record.specs.Widths.{AreWide};
ghost use Rattle.flow_instance.specs.Limits.{batch_limit};
ghost use Rattle.flow_instance.specs.Spots.{setting};
ghost use Rattle.flow_core.specs.Starting.{AreAllStarted, AreAllUnstarted, AreDealt, AreUnstarted, CanStartEach, HaveAtMost, StartAllFrom, StartFrom, TakesOwn, first_share};

use crate::instance_lists::{InstanceList, Instances};
use flow_instance::{Instance, Unstarted};
use local_strategy::Local;
use pact_bag::{Inputs, Rows};
use pact_operators::{Op, OpKind, Physical, Program};
use pact_record::OutOfMemory;
use std::alloc::Global;

/// What the instances of one source or operator start from, by worker.
#[derive(Drop)]
pub struct UnstartedInstances {
    pub(crate) held: Vec<Unstarted>,
}

impl UnstartedInstances {
    /// How many rows the first worker has of its own. Rows are dealt in turn from the first worker on, so no worker has
    /// more.
    pub fn share_len(&self) -> usize
        ensures first { result ≡ first_share self.now.held.items }
        ensures most { (p : ProgramData) (physical : PhysicalData) (size at : ℕ) (rows : Bag)
            → AreUnstarted p physical size at rows physical.workers self.now.held.items
            → HaveAtMost result self.now.held.items }
    {
        match self.held.first() {
            Some(unstarted) => unstarted.share_len(),
            None => 0,
        }
    }

    /// What the instances start from, in the order of their workers.
    pub fn into_vec(self) -> Vec<Unstarted>
        ensures { result.items ≡ self.held.items }
    {
        self.held
    }
}

// The rows of the next source if this is one. An operator has no rows.
fn own_rows(alloc: Global, op: &Op, left: &mut Inputs) -> Rows
    requires { is_source_kind op.now.kind ≡ true → 0 < length left.old }
    ensures { TakesOwn (is_source_kind op.now.kind) left.old result left.new }
{
    if op.kind == OpKind::Source {
        left.take_first()
    } else {
        Rows::new(alloc)
    }
}

// An empty share for each worker, with room for its part of `rows` rows.
fn no_shares(alloc: Global, workers: u32, rows: usize) -> Result<Vec<Rows>, OutOfMemory>
    requires { 1 ≤ workers }
    ensures { IfOk result (λ shares. AreDealt workers [] shares.items) }
{
    let room = rows.div_ceil(workers as usize);
    let mut shares = Vec::with_capacity(alloc, workers as usize)?;
    for _ in 0..workers {
        shares.push_reserved(Rows::with_capacity(alloc, room)?);
    }
    Ok(shares)
}

// All rows as the share of one worker.
fn one_share(alloc: Global, rows: Rows) -> Result<Vec<Rows>, OutOfMemory>
    ensures { IfOk result (λ shares. shares.items ≡ rows ∷ []) }
{
    let mut shares = Vec::new(alloc);
    shares.push(rows)?;
    Ok(shares)
}

// Moves each row to the worker whose number is the row's modulo the number of workers.
fn deal(alloc: Global, rows: Rows, workers: u32) -> Result<Vec<Rows>, OutOfMemory>
    requires { 1 ≤ workers }
    ensures { IfOk result (λ shares. AreDealt workers rows shares.items) }
{
    if workers == 1 {
        return one_share(alloc, rows);
    }
    // `rows` makes it known that they have one width.
    let _same = rows.rows();
    let count = rows.len();
    let mut shares = no_shares(alloc, workers, count)?;
    let mut number: usize = 0;
    for row in rows.into_records() {
        let to = number % workers as usize;
        shares[to].push(row)?;
        number += 1;
    }
    Ok(shares)
}

// What the instances of a source or operator start from, each with its share of the rows.
fn unstarted_of(
    alloc: Global,
    program: &Program,
    physical: &Physical,
    rows: Rows,
    batch: u32,
    at: u32,
) -> Result<UnstartedInstances, OutOfMemory>
    requires plan { IsPlanOf program.now.functions program.now.ops physical.now.tree }
    requires wide { AreWide program.now.fields rows }
    requires none { is_source_kind (kind_at program.now.ops at) ≡ false → rows ≡ [] }
    requires batch { 1 ≤ batch }
    requires at { at < length program.now.ops }
    ensures { IfOk result (λ unstarted. AreUnstarted program.now physical.now batch at rows physical.now.workers
        unstarted.held.items) }
{
    let workers = physical.workers();
    let mut held = Vec::with_capacity(alloc, workers as usize)?;
    let mut worker = 0;
    let shares = deal(alloc, rows, workers)?;
    for share in shares {
        let unstarted = Unstarted::new(alloc, program, physical, at, worker, batch, share)?;
        held.push_reserved(unstarted);
        worker += 1;
    }
    Ok(UnstartedInstances { held })
}

/// What the instances of all sources and operators start from, by their numbers. Each row of a source moves to its
/// worker. An instance emits batches of at most `batch` records.
pub fn all_unstarted(
    alloc: Global,
    program: &Program,
    physical: &Physical,
    inputs: Inputs,
    batch: u32,
) -> Result<Vec<UnstartedInstances>, OutOfMemory>
    requires plan { IsPlanOf program.now.functions program.now.ops physical.now.tree }
    requires inputs { AreInputsOf program.now inputs }
    requires batch { (1 ≤ batch) × (batch ≤ batch_limit) }
    ensures { IfOk result (λ all. AreAllUnstarted program.now physical.now inputs batch
        (length program.now.ops) all.items) }
{
    let ops = program.ops();
    // `workers` makes it known that a physical plan has few numbers.
    let _workers = physical.workers();
    let mut left = inputs;
    let mut all = Vec::with_capacity(alloc, ops.len())?;
    for (at, op) in ops.iter().enumerate() {
        let own = own_rows(alloc, op, &mut left);
        let unstarted = unstarted_of(alloc, program, physical, own, batch, at as u32)?;
        all.push_reserved(unstarted);
    }
    Ok(all)
}

/// The instances of one source or operator, started one after the other.
pub fn start_in_turn<L: Local>(
    alloc: Global,
    own: UnstartedInstances,
) -> Result<Instances<L>, OutOfMemory>
    requires may { CanStartEach own }
    ensures { IfOk result (StartFrom own.held.items) }
{
    let mut held = Vec::with_capacity(alloc, own.held.len())?;
    for unstarted in own.held {
        held.push_reserved(Instance::start_from(alloc, unstarted)?);
    }
    Ok(Instances { held })
}

// The instances of all sources and operators, started one after the other.
fn start_all<L: Local>(
    alloc: Global,
    unstarted: Vec<UnstartedInstances>,
) -> Result<InstanceList<L>, OutOfMemory>
    requires may { AllByRecursion CanStartEach unstarted.items }
    ensures { IfOk result (StartAllFrom unstarted.items) }
{
    let mut all = Vec::with_capacity(alloc, unstarted.len())?;
    for own in unstarted {
        all.push_reserved(start_in_turn(alloc, own)?);
    }
    Ok(InstanceList { all })
}

/// The plan's instances at their start, by number and then by worker. Each row of a source moves to its worker. An
/// instance emits batches of at most `batch` records.
pub fn start_instances<L: Local>(
    alloc: Global,
    program: &Program,
    physical: &Physical,
    inputs: Inputs,
    batch: u32,
) -> Result<InstanceList<L>, OutOfMemory>
    requires plan { IsPlanOf program.now.functions program.now.ops physical.now.tree }
    requires inputs { AreInputsOf program.now inputs }
    requires batch { (1 ≤ batch) × (batch ≤ batch_limit) }
    ensures { IfOk result (AreAllStarted (setting program.now inputs physical.now) batch (length program.now.ops)) }
{
    let unstarted = all_unstarted(alloc, program, physical, inputs, batch)?;
    start_all(alloc, unstarted)
}
