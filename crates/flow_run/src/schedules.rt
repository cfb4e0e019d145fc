//! Workers work side by side, or one after the other.

ghost use Rattle.std.specs.Prelude.{◌≡◌, ◌≤◌, ◌<◌, ℕ, length, slice_index_or, IfOk};
ghost use Rattle.std.specs.List.{All};
ghost use Rattle.flow_run.specs.Schedules.{AreJobs, AreWorkersOf, HasWorkedIn, IsJobReady};
ghost use Rattle.flow_run.specs.Workers.{HaveAllWorked, IsWorkerReady};
ghost use Rattle.flow_run.specs.declared.schedules.Job.{Job};

use crate::tables::Tables;
use crate::workers::{Worker, work};
use batch_channel::{Pipe, Width};
use local_strategy::Local;
use pact_record::OutOfMemory;
use std::alloc::Global;
use std::sync::Wait;
use std::thread;
use std::thread::Threads;
use worker_gate::{Flags, Gate};

/// A worker with what it shares with the others, and whether its work ran out of memory. Threads work on jobs rather
/// than on workers, since the checker proves that an item may go to a thread only if its type has a lifetime.
#[derive(Drop)]
pub(crate) struct Job<'a, L: Local, W: Width> {
    pub(crate) worker: Worker<L, W>,
    pub(crate) pipes: &'a Tables<Pipe<W>>,
    pub(crate) flags: &'a Flags,
    pub(crate) failed: bool,
}

// A job for each worker.
fn jobs_of<'a, L: Local, W: Width>(
    alloc: Global,
    workers: Vec<Worker<L, W>>,
    pipes: &'a Tables<Pipe<W>>,
    flags: &'a Flags,
) -> Result<Vec<Job<'a, L, W>>, OutOfMemory>
    ensures { IfOk result (λ jobs. AreJobs pipes.now workers.items jobs.items) }
{
    let mut jobs = Vec::new(alloc);
    for worker in workers {
        jobs.push(Job {
            worker,
            pipes,
            flags,
            failed: false,
        })?;
    }
    Ok(jobs)
}

// Does a job, and records whether it ran out of memory.
fn do_job<L: Local, W: Width, R: Wait, G: Gate>(job: &mut Job<'_, L, W>, rt: &R, gate: &G)
    requires ready { IsJobReady W.fields job.old }
    ensures { HasWorkedIn W.fields job.old job.new }
{
    job.failed = work(&mut job.worker, job.pipes, job.flags, rt, gate).is_err();
}

// Does the jobs, each on a thread of its own, and returns when all have ended. If the system provides too few threads,
// some jobs are done one after the other.
fn run_side_by_side<L: Local, W: Width + Sync + Send, R: Threads + Wait + Sync, G: Gate>(
    rt: &R,
    jobs: &mut [Job<'_, L, W>],
    gate: &G,
)
    requires some { 1 ≤ length jobs.old }
    requires ready { All (IsJobReady W.fields) jobs.old }
    ensures len { length jobs.new ≡ length jobs.old }
    ensures each { (i : ℕ) (d : Job _ _) → i < length jobs.old → HasWorkedIn W.fields (slice_index_or jobs.old i d)
        (slice_index_or jobs.new i d) }
{
    let threads = jobs.len();
    thread::for_each_mut(
        rt,
        jobs,
        threads,
        &|_, job|
            requires { IsJobReady W.fields job.now }
            ensures { HasWorkedIn W.fields job.entry.now job.exit.now }
        { do_job(job, rt, gate) },
    );
}

// The workers of the jobs, if none ran out of memory.
fn workers_of<L: Local, W: Width>(
    alloc: Global,
    jobs: Vec<Job<'_, L, W>>,
) -> Result<Vec<Worker<L, W>>, OutOfMemory>
    ensures { IfOk result (λ workers. AreWorkersOf jobs.entry.items workers.items) }
{
    let mut workers = Vec::new(alloc);
    for job in jobs {
        let Job {
            worker,
            pipes: _,
            flags: _,
            failed,
        } = job;
        if failed {
            return Err(OutOfMemory);
        }
        workers.push(worker)?;
    }
    Ok(workers)
}

/// All workers work side by side, and return together. If one runs out of memory, the others go on until they end or
/// leave.
pub(crate) fn work_side_by_side<
    L: Local,
    W: Width + Sync + Send,
    R: Threads + Wait + Sync,
    G: Gate,
>(
    rt: &R,
    alloc: Global,
    gate: &G,
    workers: Vec<Worker<L, W>>,
    pipes: &Tables<Pipe<W>>,
    flags: &Flags,
) -> Result<Vec<Worker<L, W>>, OutOfMemory>
    requires some { 1 ≤ length workers.items }
    requires ready { All (IsWorkerReady W.fields pipes.now) workers.items }
    ensures { IfOk result (λ after. HaveAllWorked W.fields pipes.now workers.items after.items) }
{
    let mut jobs = jobs_of(alloc, workers, pipes, flags)?;
    run_side_by_side(rt, &mut jobs, gate);
    workers_of(alloc, jobs)
}

/// The workers work one after the other on the caller's thread. If one runs out of memory, the next ones don't work.
pub(crate) fn work_in_turn<L: Local, W: Width, R: Wait, G: Gate>(
    rt: &R,
    gate: &G,
    workers: Vec<Worker<L, W>>,
    pipes: &Tables<Pipe<W>>,
    flags: &Flags,
) -> Result<Vec<Worker<L, W>>, OutOfMemory>
    requires ready { All (IsWorkerReady W.fields pipes.now) workers.items }
    ensures { IfOk result (λ after. HaveAllWorked W.fields pipes.now workers.items after.items) }
{
    let mut workers = workers;
    for at in 0..workers.len() {
        work(&mut workers[at], pipes, flags, rt, gate)?;
    }
    Ok(workers)
}
