//! Pipes are closed, and the notes that are left on them are read out.

ghost use Rattle.std.specs.Prelude.{◌≡◌, ◌≤◌, ◌++◌, ◌∷◌, [], ℕ, None, Some, IfOk, OnOk};
ghost use Rattle.flow_run.specs.Ends.{IsEndOf, notes_in};
ghost use Rattle.flow_run.specs.WorkerData.{AreEnds, AreGathered, Goes, IsBeyond, IsPutOut, IsTakeOut, put_at, take_at};
ghost use Rattle.flow_run.specs.Workers.{all_data};
ghost use Rattle.flow_run.specs.Tables.{cell_in};

use crate::tables::Tables;
use crate::wires::pipe_of;
use crate::workers::Worker;
use batch_channel::{Left, Pipe, PutEnd, TakeEnd, Width, close};
use flow_core::NoteLists;
use flow_instance::{Note, PipeId};
use local_strategy::Local;
use pact_record::OutOfMemory;
use std::alloc::Global;
use std::collections::VecDeque;
use std::sync::Wait;

// The notes that are left in a pipe.
fn read_out<W: Width, R: Wait>(
    rt: &R,
    alloc: Global,
    mut left: Left<W>,
) -> Result<VecDeque<Note>, OutOfMemory>
    ensures { IfOk result (λ notes. notes.items ≡ left) }
{
    let mut notes = VecDeque::new(alloc);
    for _ in rt.forever() {
        let Some(note) = left.next(rt) else {
            return Ok(notes);
        };
        notes.push_back(note)?;
    }
    unreachable!()
}

// Closes a pipe, and reads out the notes that are left on it.
fn close_one<W: Width, R: Wait>(
    rt: &R,
    alloc: Global,
    pipe: Pipe<W>,
    put: Option<PutEnd<W>>,
    take: Option<TakeEnd<W>>,
) -> Result<VecDeque<Note>, OutOfMemory>
    requires put { IsEndOf (Some pipe) put }
    requires take { IsEndOf (Some pipe) take }
    ensures { IfOk result (λ notes. notes_in put ≡ notes_in take ++ notes.items) }
{
    let Some(put) = put else { unreachable!() };
    let Some(take) = take else { unreachable!() };
    let left = close(rt, pipe, put, take);
    read_out(rt, alloc, left)
}

// Lists the notes that are left on a pipe.
fn list_left(lists: &mut NoteLists, id: PipeId, notes: VecDeque<Note>) -> Result<(), OutOfMemory>
    ensures { OnOk result (lists.new ≡ lists.old ++ record { pipe = id; notes = notes.items } ∷ []) }
{
    lists.push(id, notes)?;
    Ok(())
}

// Takes the end that puts on a pipe from its sender, if the sender has it.
fn put_end<L: Local, W: Width>(workers: &mut [Worker<L, W>], id: PipeId) -> Option<PutEnd<W>>
    ensures end { result ≡ put_at (all_data workers.old) id.edge id.from id.to }
    ensures out { IsPutOut (all_data workers.old) id.edge id.from id.to (all_data workers.new) }
{
    if id.from as usize >= workers.len() {
        return None;
    }
    workers[id.from as usize].puts.take(id.edge, id.to)
}

// Takes the end that takes from a pipe from its receiver, if the receiver has it.
fn take_end<L: Local, W: Width>(workers: &mut [Worker<L, W>], id: PipeId) -> Option<TakeEnd<W>>
    ensures end { result ≡ take_at (all_data workers.old) id.edge id.from id.to }
    ensures out { IsTakeOut (all_data workers.old) id.edge id.from id.to (all_data workers.new) }
{
    if id.to as usize >= workers.len() {
        return None;
    }
    workers[id.to as usize].takes.take(id.edge, id.from)
}

// Closes a pipe if it exists, and lists the notes that are left on it.
fn close_at<L: Local, W: Width, R: Wait>(
    rt: &R,
    alloc: Global,
    id: PipeId,
    pipes: &mut Tables<Pipe<W>>,
    workers: &mut [Worker<L, W>],
    lists: &mut NoteLists,
) -> Result<(), OutOfMemory>
    requires { AreEnds pipes.old (all_data workers.old) }
    ensures goes { OnOk result (Goes pipes.old (all_data workers.old) lists.old pipes.new
        (all_data workers.new) lists.new) }
    ensures gone { OnOk result (cell_in pipes.new id.edge id.from id.to ≡ None) }
{
    let Some(pipe) = pipes.take(id.edge, id.from, id.to) else {
        return Ok(());
    };
    let put = put_end(workers, id);
    let take = take_end(workers, id);
    let notes = close_one(rt, alloc, pipe, put, take)?;
    list_left(lists, id, notes)
}

/// Closes all pipes of a plan with `ops` sources and operators, one after the other, and lists the notes that are left
/// on each. If memory runs out, the notes that were read out are gone.
pub(crate) fn gather<L: Local, W: Width, R: Wait>(
    rt: &R,
    alloc: Global,
    ops: u32,
    pipes: Tables<Pipe<W>>,
    workers: &mut [Worker<L, W>],
) -> Result<NoteLists, OutOfMemory>
    requires few { ops ≤ 64 }
    requires inside { (edge from to : ℕ) → IsBeyond ops edge from to → cell_in pipes edge from to ≡ None }
    requires ends { AreEnds pipes (all_data workers.old) }
    ensures { IfOk result (λ lists. AreGathered pipes (all_data workers.old) lists (all_data workers.new)) }
{
    let mut pipes = pipes;
    let mut lists = NoteLists::new(alloc);
    for number in 0..ops * 256 {
        close_at(rt, alloc, pipe_of(number), &mut pipes, workers, &mut lists)?;
    }
    Ok(lists)
}
