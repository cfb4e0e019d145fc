//! Turns over all instances of a worker.

ghost use Rattle.std.specs.Prelude.{◌≡◌, ◌<◌, length, IfOk, OnOk};
ghost use Rattle.flow_run.specs.WorkerStates.{AllHeld, IsReady, Works, worker_state};
ghost use Rattle.flow_run.specs.Ends.{ArePuts, AreTakes};
ghost use Rattle.flow_run.specs.Tries.{HasStepped, AfterAttempt};

use crate::attempts::Attempt;
use crate::tables::{Table, Tables};
use crate::tries::{try_put, try_take};
use crate::worker_contexts::WorkerContext;
use batch_channel::{Pipe, PutEnd, TakeEnd, Width};
use flow_instance::{Instance, PipeId, Want};
use local_strategy::Local;
use pact_record::OutOfMemory;
use std::sync::Wait;
use worker_gate::{Act, Gate};

// Attempts what the instance of a source or operator wants.
fn step<L: Local, W: Width, R: Wait, G: Gate>(
    context: &WorkerContext<'_, R, G>,
    at: u32,
    instances: &mut [Instance<L>],
    puts: &mut Table<PutEnd<W>>,
    takes: &mut Table<TakeEnd<W>>,
    pipes: &Tables<Pipe<W>>,
) -> Result<Attempt, OutOfMemory>
    requires at { at < length instances.old }
    requires ready { IsReady W.fields context.now.number pipes.now instances.old puts.old takes.old }
    ensures count { length instances.new ≡ length instances.old }
    ensures puts { OnOk result (ArePuts pipes.now context.now.number puts.new) }
    ensures takes { OnOk result (AreTakes pipes.now context.now.number takes.new) }
    ensures stepped { IfOk result (HasStepped pipes.now context.now.number (worker_state instances.old puts.old takes.old) at
        (worker_state instances.new puts.new takes.new)) }
{
    let i = &mut instances[at as usize];
    match i.want() {
        Want::Put(to) => {
            let id = PipeId {
                edge: at,
                from: context.number,
                to,
            };
            Ok(try_put(context, i, id, puts, pipes))
        }
        Want::Take(port) => try_take(context, i, port, takes, pipes),
        Want::End => {
            context.before(Act::End);
            i.end();
            Ok(Attempt::Progress)
        }
        Want::Done => Ok(Attempt::Blocked),
    }
}

/// Attempts what each instance wants, one after the other.
pub(crate) fn turn<L: Local, W: Width, R: Wait, G: Gate>(
    context: &WorkerContext<'_, R, G>,
    instances: &mut [Instance<L>],
    puts: &mut Table<PutEnd<W>>,
    takes: &mut Table<TakeEnd<W>>,
    pipes: &Tables<Pipe<W>>,
) -> Result<Attempt, OutOfMemory>
    requires ready { IsReady W.fields context.now.number pipes.now instances.old puts.old takes.old }
    ensures count { length instances.new ≡ length instances.old }
    ensures ready { OnOk result (IsReady W.fields context.now.number pipes.now instances.new puts.new takes.new) }
    ensures works { OnOk result (Works context.now.number (length instances.old)
        (worker_state instances.old puts.old takes.old) (worker_state instances.new puts.new takes.new)) }
    ensures held { IfOk result (λ attempt. AfterAttempt attempt (Unit {0}) (AllHeld pipes.now context.now.number
        (length instances.new) (worker_state instances.new puts.new takes.new))) }
{
    let count = instances.len() as u32;
    let mut attempt = Attempt::Blocked;
    for at in 0..count {
        let now = step(context, at, instances, puts, takes, pipes)?;
        attempt = attempt.and(now);
    }
    Ok(attempt)
}
