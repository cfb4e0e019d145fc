//! Pipes at their start, and workers with their ends of them.

ghost use Rattle.std.specs.Prelude.{◌≡◌, ◌≤◌, ◌<◌, ◌*◌, ◌/◌, ◌%◌, ℕ, true, length, IfOk, OnOk, Some};
ghost use Rattle.plan_trees.specs.Plans.{has};
ghost use Rattle.flow_run.specs.Ends.{goes_along};
ghost use Rattle.flow_run.specs.Tables.{HasPlaceIn, IsBlank, IsChangedIn, IsShaped};
ghost use Rattle.flow_run.specs.Wires.{AreWired, HaveNone, IsMade, KeepInstances, number_of, puts_in, takes_in};

use crate::tables::{Tables, blank_table, blank_tables};
use crate::workers::Worker;
use batch_channel::{Pipe, PutEnd, TakeEnd, Width, pipe};
use flow_instance::PipeId;
use local_strategy::Local;
use pact_operators::Physical;
use pact_record::OutOfMemory;
use std::alloc::Global;
use std::sync::Wait;

/// The workers in the order of their numbers, and the pipes between them by edge, sender and receiver.
#[derive(Drop)]
pub(crate) struct Network<L: Local, W: Width> {
    pub(crate) workers: Vec<Worker<L, W>>,
    pub(crate) pipes: Tables<Pipe<W>>,
}

/// The pipe with a number. Pipes are numbered by edge, sender and receiver; there are at most 16 workers.
pub(crate) fn pipe_of(number: u32) -> PipeId
    ensures edge { result.edge ≡ number / 256 }
    ensures from { result.from ≡ number / 16 % 16 }
    ensures to { result.to ≡ number % 16 }
    ensures number { number ≡ number_of result.edge result.from result.to }
    ensures below { (result.from < 16) × (result.to < 16) }
{
    PipeId {
        edge: number / 256,
        from: number / 16 % 16,
        to: number % 16,
    }
}

// Whether records can go along the edge from one worker to another.
fn goes_along(physical: &Physical, id: PipeId) -> bool
    requires { has id.edge physical.now.tree ≡ true }
    ensures { result ≡ goes_along physical.now id.edge id.from id.to }
{
    let workers = physical.workers();
    if id.from >= workers || id.to >= workers {
        return false;
    }
    match physical.ship(id.edge) {
        Some(ship) => ship.has_pipe(id.from, id.to),
        None => false,
    }
}

// Workers without an instance and without an end, in a plan with `ops` sources and operators.
fn blank_workers<L: Local, W: Width>(
    alloc: Global,
    count: u32,
    ops: u32,
) -> Result<Vec<Worker<L, W>>, OutOfMemory>
    ensures none { IfOk result (λ ws. HaveNone count ws.items) }
    ensures puts { IfOk result (λ ws. IsBlank (puts_in ws.items)) }
    ensures put_places { IfOk result (λ ws. IsShaped count ops count (puts_in ws.items)) }
    ensures takes { IfOk result (λ ws. IsBlank (takes_in ws.items)) }
    ensures take_places { IfOk result (λ ws. IsShaped count ops count (takes_in ws.items)) }
{
    let mut workers = Vec::new(alloc);
    for number in 0..count {
        let puts = blank_table(alloc, ops, count)?;
        let takes = blank_table(alloc, ops, count)?;
        workers.push(Worker {
            number,
            instances: Vec::with_capacity(alloc, ops as usize)?,
            puts,
            takes,
        })?;
    }
    Ok(workers)
}

// Gives the end that puts on a pipe to its sender.
fn give_put<L: Local, W: Width>(workers: &mut [Worker<L, W>], id: PipeId, put: PutEnd<W>)
    requires { HasPlaceIn (puts_in workers.old) id.from id.edge id.to }
    ensures changed { IsChangedIn (puts_in workers.old) id.from id.edge id.to (Some put) (puts_in workers.new) }
    ensures places { (m n o : ℕ) → IsShaped m n o (puts_in workers.old) → IsShaped m n o (puts_in workers.new) }
    ensures takes { takes_in workers.new ≡ takes_in workers.old }
    ensures kept { KeepInstances workers.old workers.new }
{
    workers[id.from as usize].puts.set(id.edge, id.to, put);
}

// Gives the end that takes from a pipe to its receiver.
fn give_take<L: Local, W: Width>(workers: &mut [Worker<L, W>], id: PipeId, take: TakeEnd<W>)
    requires { HasPlaceIn (takes_in workers.old) id.to id.edge id.from }
    ensures changed { IsChangedIn (takes_in workers.old) id.to id.edge id.from (Some take) (takes_in workers.new) }
    ensures places { (m n o : ℕ) → IsShaped m n o (takes_in workers.old) → IsShaped m n o (takes_in workers.new) }
    ensures puts { puts_in workers.new ≡ puts_in workers.old }
    ensures kept { KeepInstances workers.old workers.new }
{
    workers[id.to as usize].takes.set(id.edge, id.from, take);
}

// Makes a pipe, and gives its ends to its workers.
fn make<L: Local, W: Width, R: Wait>(
    rt: &R,
    alloc: Global,
    depth: u32,
    id: PipeId,
    network: &mut Network<L, W>,
) -> Result<(), OutOfMemory>
    requires depth { (1 ≤ depth) × (depth ≤ 64) }
    requires pipe_place { HasPlaceIn network.old.pipes id.edge id.from id.to }
    requires put_place { HasPlaceIn (puts_in network.old.workers.items) id.from id.edge id.to }
    requires take_place { HasPlaceIn (takes_in network.old.workers.items) id.to id.edge id.from }
    ensures made { OnOk result (IsMade depth id.edge id.from id.to
        network.old.pipes (puts_in network.old.workers.items) (takes_in network.old.workers.items)
        network.new.pipes (puts_in network.new.workers.items) (takes_in network.new.workers.items)) }
    ensures pipe_places { OnOk result ((m n o : ℕ)
        → IsShaped m n o network.old.pipes → IsShaped m n o network.new.pipes) }
    ensures put_places { OnOk result ((m n o : ℕ)
        → IsShaped m n o (puts_in network.old.workers.items) → IsShaped m n o (puts_in network.new.workers.items)) }
    ensures take_places { OnOk result ((m n o : ℕ)
        → IsShaped m n o (takes_in network.old.workers.items) → IsShaped m n o (takes_in network.new.workers.items)) }
    ensures kept { OnOk result (KeepInstances network.old.workers.items network.new.workers.items) }
{
    let (pipe, put, take) = pipe::<W, R>(rt, alloc, depth)?;
    network.pipes.set(id.edge, id.from, id.to, pipe);
    give_put(&mut network.workers, id, put);
    give_take(&mut network.workers, id, take);
    Ok(())
}

/// The pipes of a physical plan with `count` sources and operators, and its workers with their ends but without an
/// instance. Each pipe holds at most `depth` notes.
pub(crate) fn wire<L: Local, W: Width, R: Wait>(
    rt: &R,
    alloc: Global,
    physical: &Physical,
    count: u32,
    depth: u32,
) -> Result<Network<L, W>, OutOfMemory>
    requires depth { (1 ≤ depth) × (depth ≤ 64) }
    requires count { count ≤ 64 }
    requires only { (at : ℕ) → at < count → has at physical.now.tree ≡ true }
    ensures wired { IfOk result (λ n. AreWired physical.now count depth (256 * count) n.pipes (puts_in n.workers.items)
        (takes_in n.workers.items)) }
    ensures none { IfOk result (λ n. HaveNone physical.now.workers n.workers.items) }
{
    let size = physical.workers();
    let workers = blank_workers(alloc, size, count)?;
    let pipes = blank_tables(alloc, count, size, size)?;
    let mut network = Network { workers, pipes };
    for number in 0..count * 256 {
        let id = pipe_of(number);
        if goes_along(physical, id) {
            make(rt, alloc, depth, id, &mut network)?;
        }
    }
    Ok(network)
}
