//! Workers and their work.

ghost use Rattle.std.specs.Prelude.{◌≡◌, length, OnOk};
ghost use Rattle.flow_run.specs.WorkerStates.{AllHeld, IsReady, StaysReady, Works, worker_state};
ghost use Rattle.flow_run.specs.Workers.{HasWorked, IsWorkerReady};

use crate::attempts::Attempt;
use crate::tables::{Table, Tables};
use crate::turns::turn;
use crate::worker_contexts::WorkerContext;
use batch_channel::{Pipe, PutEnd, TakeEnd, Width};
use flow_instance::{Instance, Want};
use local_strategy::Local;
use pact_record::OutOfMemory;
use std::sync::Wait;
use std::thread;
use std::time::Duration;
use worker_gate::{Flags, Gate};

/// A worker: its number, its instance of each source and operator by number, its ends of the pipes that leave it by
/// edge and receiver, and its ends of the pipes that come to it by edge and sender.
#[derive(Drop)]
pub struct Worker<L: Local, W: Width> {
    pub number: u32,
    pub instances: Vec<Instance<L>>,
    pub puts: Table<PutEnd<W>>,
    pub takes: Table<TakeEnd<W>>,
}

// A worker waits this many turns in a row without an event for the others to start. After the first `TRIES` of them it
// naps between turns, so it waits about 0.4 seconds: a thread that a busy system starts late still finds the others.
const PATIENCE: u32 = 4096;

// After a turn without an event a worker takes the next one at once, up to this many times in a row.
const TRIES: u32 = 64;

// The length of a nap in microseconds.
const NAP: u64 = 50;

// Whether every instance is done.
fn all_done<L: Local>(instances: &[Instance<L>]) -> bool {
    for i in instances {
        if i.want() != Want::Done {
            return false;
        }
    }
    true
}

// Whether the worker ends after a turn without an event: its instances are done, or it leaves. If it leaves, it sets
// the flag.
fn is_over<L: Local>(
    flags: &Flags,
    instances: &[Instance<L>],
    attempt: Attempt,
    idle: u32,
) -> bool {
    if all_done(instances) {
        return true;
    }
    let leaves = match attempt {
        Attempt::Exhausted => true,
        Attempt::Progress => false,
        Attempt::Blocked => flags.left() || (idle >= PATIENCE && !flags.all_started()),
    };
    if leaves {
        flags.leave();
    }
    leaves
}

// Yields the thread for a moment. If the last turns had no event, it naps, so that workers without work leave the
// processors to the others.
fn rest<R: Wait>(rt: &R, flags: &Flags, idle: u32) {
    if idle < TRIES {
        thread::yield_now();
    } else {
        flags.nap(rt, Duration::from_micros(NAP));
    }
}

// Takes turns until all instances are done, or the worker leaves.
fn turns<L: Local, W: Width, R: Wait, G: Gate>(
    context: &WorkerContext<'_, R, G>,
    flags: &Flags,
    instances: &mut [Instance<L>],
    puts: &mut Table<PutEnd<W>>,
    takes: &mut Table<TakeEnd<W>>,
    pipes: &Tables<Pipe<W>>,
) -> Result<(), OutOfMemory>
    requires ready { IsReady W.fields context.now.number pipes.now instances.old puts.old takes.old }
    ensures count { length instances.new ≡ length instances.old }
    ensures ready { OnOk result (IsReady W.fields context.now.number pipes.now instances.new puts.new takes.new) }
    ensures stays { OnOk result (StaysReady W.fields context.now.number pipes.now instances.old puts.old takes.old
        instances.new puts.new takes.new) }
    ensures works { OnOk result (Works context.now.number (length instances.old)
        (worker_state instances.old puts.old takes.old) (worker_state instances.new puts.new takes.new)) }
    ensures held { OnOk result (AllHeld pipes.now context.now.number (length instances.new)
        (worker_state instances.new puts.new takes.new)) }
{
    let mut idle = 0u32;
    for _ in context.rt.forever() {
        let attempt = turn(context, instances, puts, takes, pipes)?;
        if attempt.is_progress() {
            idle = 0;
        } else {
            idle = idle.saturating_add(1);
            if is_over(flags, instances, attempt, idle) {
                return Ok(());
            }
            rest(context.rt, flags, idle);
        }
    }
    unreachable!()
}

/// The worker does events of its own instances and nothing else, until all of them are done or it leaves. It goes over
/// its instances in turns. After a turn without an event it yields the thread, and from the 64th such turn in a row on
/// it naps. It leaves only after such a turn, and only for one of three reasons: another worker has left; 4,096 such
/// turns came in a row and not all workers have started; or a put would be the 2^61st of its end, and isn't done. It
/// sets the flags that it has started and that it leaves.
///
/// Out of memory is the only error. The worker may only be dropped then, and it has set the flag that it leaves.
pub fn work<L: Local, W: Width, R: Wait, G: Gate>(
    worker: &mut Worker<L, W>,
    pipes: &Tables<Pipe<W>>,
    flags: &Flags,
    rt: &R,
    gate: &G,
) -> Result<(), OutOfMemory>
    requires ready { IsWorkerReady W.fields pipes.now worker.old }
    ensures { OnOk result (HasWorked W.fields pipes.now worker.old worker.new) }
{
    flags.start();
    let context = WorkerContext {
        number: worker.number,
        rt,
        gate,
    };
    let done = turns(
        &context,
        flags,
        &mut worker.instances,
        &mut worker.puts,
        &mut worker.takes,
        pipes,
    );
    if done.is_err() {
        flags.leave();
    }
    done
}
