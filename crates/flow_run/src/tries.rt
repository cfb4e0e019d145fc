//! Attempts to put and to take.

ghost use Rattle.std.specs.Prelude.{◌≡◌, ◌≤◌, ◌<◌, ℕ, true, false, Some, length, IfNone, IfOk, IfSome, OnOk};
ghost use Rattle.batch_channel.specs.Ends.{APipe};
ghost use Rattle.flow_instance.specs.Instances.{ended_at, want};
ghost use Rattle.flow_instance.specs.Notes.{IsNote};
ghost use Rattle.flow_instance.specs.Steps.{Added, next_note};
ghost use Rattle.flow_run.specs.WorkerStates.{TakesAt};
ghost use Rattle.flow_run.specs.Ends.{ArePuts, AreTakes, IsPipeIf, notes_in};
ghost use Rattle.flow_run.specs.Tables.{cell, cell_in};
ghost use Rattle.flow_run.specs.Tries.{HasNotPut, HasNotPutTo, HasPut, HasPutTo, MayTake, AfterAttempt};

use crate::attempts::Attempt;
use crate::tables::{Table, Tables};
use crate::worker_contexts::WorkerContext;
use batch_channel::{Pipe, PutEnd, TakeEnd, Width};
use flow_core::MAX_WORKERS;
use flow_instance::{Instance, Note, PipeId, Want};
use local_strategy::Local;
use pact_record::OutOfMemory;
use std::sync::Wait;
use worker_gate::{Act, Gate};

// The most notes that an end puts.
const MOST_PUTS: u64 = (1 << 61) - 1;

// Attempts to put the note that the instance wants to put.
fn put_by<L: Local, W: Width, R: Wait, G: Gate>(
    context: &WorkerContext<'_, R, G>,
    i: &mut Instance<L>,
    pipe: &Pipe<W>,
    end: &mut PutEnd<W>,
) -> Attempt
    requires wanted { (to : ℕ) × (want i.old ≡ Want.Put to) }
    requires note { IsNote W.fields (next_note i.old.waiting) }
    requires pipe { end.old.name ≡ pipe.now.name }
    requires shallow { pipe.now.depth ≤ 64 }
    ensures name { end.new.name ≡ end.old.name }
    ensures attempt { AfterAttempt result (HasPut i.old end.old i.new end.new)
        (HasNotPut pipe.now i.old end.old i.new end.new) }
{
    if end.len() >= MOST_PUTS {
        return Attempt::Exhausted;
    }
    context.before(Act::Put);
    let note = i.offer();
    match pipe.put(context.rt, end, note) {
        Ok(()) => Attempt::Progress,
        Err(note) => {
            i.back(note);
            Attempt::Blocked
        }
    }
}

/// Attempts to put the note that the instance at the sender's end of the pipe wants to put there.
pub(crate) fn try_put<L: Local, W: Width, R: Wait, G: Gate>(
    context: &WorkerContext<'_, R, G>,
    i: &mut Instance<L>,
    id: PipeId,
    puts: &mut Table<PutEnd<W>>,
    pipes: &Tables<Pipe<W>>,
) -> Attempt
    requires wanted { (to : ℕ) × (want i.old ≡ Want.Put to) }
    requires note { IsNote W.fields (next_note i.old.waiting) }
    requires pipe { IsPipeIf true (cell_in pipes.now id.edge id.from id.to) }
    requires ends { ArePuts pipes.now id.from puts.old }
    ensures ends { ArePuts pipes.now id.from puts.new }
    ensures attempt { AfterAttempt result (HasPutTo i.old id.edge id.to puts.old i.new puts.new)
        (HasNotPutTo pipes.now id.from i.old id.edge id.to puts.old i.new puts.new) }
{
    let Some(pipe) = pipes.at(id.edge, id.from, id.to) else {
        unreachable!()
    };
    let Some(mut end) = puts.take(id.edge, id.to) else {
        unreachable!()
    };
    let attempt = put_by(context, i, pipe, &mut end);
    puts.set(id.edge, id.to, end);
    attempt
}

// Takes a note from a pipe, if the pipe exists and has a note, and its sender hasn't ended.
fn take_from<L: Local, W: Width, R: Wait, G: Gate>(
    context: &WorkerContext<'_, R, G>,
    i: &Instance<L>,
    port: u32,
    id: PipeId,
    takes: &mut Table<TakeEnd<W>>,
    pipes: &Tables<Pipe<W>>,
) -> Option<Note>
    requires port { port < length i.now.part.ports }
    requires below { (p : APipe) → cell_in pipes.now id.edge id.from id.to ≡ Some p → id.from < i.now.part.workers }
    requires ends { AreTakes pipes.now id.to takes.old }
    ensures ends { AreTakes pipes.now id.to takes.new }
    ensures below { IfSome result (λ note. id.from < i.now.part.workers) }
    ensures sends { IfSome result (λ note. ended_at i.now port id.from ≡ false) }
    ensures note { IfSome result (λ note. IsNote W.fields note) }
    ensures added { IfSome result (λ note. Added (λ a b. notes_in (cell takes.old a b)) id.edge id.from note
        (λ a b. notes_in (cell takes.new a b))) }
    ensures none { IfNone result ((a b : ℕ) → notes_in (cell takes.new a b) ≡ notes_in (cell takes.old a b)) }
{
    let pipe = pipes.at(id.edge, id.from, id.to)?;
    if i.ended(port, id.from) {
        return None;
    }
    let Some(mut end) = takes.take(id.edge, id.from) else {
        unreachable!()
    };
    context.before(Act::Take);
    let note = pipe.take(context.rt, &mut end);
    takes.set(id.edge, id.from, end);
    note
}

/// Attempts to take a note at the port, from any sender that hasn't ended there.
pub(crate) fn try_take<L: Local, W: Width, R: Wait, G: Gate>(
    context: &WorkerContext<'_, R, G>,
    i: &mut Instance<L>,
    port: u32,
    takes: &mut Table<TakeEnd<W>>,
    pipes: &Tables<Pipe<W>>,
) -> Result<Attempt, OutOfMemory>
    requires wanted { want i.old ≡ Want.Take port }
    requires may { MayTake W.fields context.now.number pipes.now i.old port }
    requires ends { AreTakes pipes.now context.now.number takes.old }
    ensures ends { OnOk result (AreTakes pipes.now context.now.number takes.new) }
    ensures attempt { IfOk result (λ attempt. AfterAttempt attempt (TakesAt i.old context.now.number port
        (λ a b. notes_in (cell takes.old a b)) i.new (λ a b. notes_in (cell takes.new a b))) ((i.new ≡ i.old)
        × ((a b : ℕ) → notes_in (cell takes.new a b) ≡ notes_in (cell takes.old a b)))) }
{
    let edge = i.edge(port);
    for from in 0..MAX_WORKERS as u32 {
        let id = PipeId {
            edge,
            from,
            to: context.number,
        };
        if let Some(note) = take_from(context, i, port, id, takes, pipes) {
            i.took(port, from, note)?;
            return Ok(Attempt::Progress);
        }
    }
    Ok(Attempt::Blocked)
}
