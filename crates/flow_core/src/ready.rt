//! Instances that may be able to go on.

ghost use Rattle.std.specs.Prelude.{◌≡◌, [], OnOk, true, false, get_or, replicate, set};
ghost use Rattle.flow_core.specs.Listed.{IsPopped, is_marked, pushed, with_mark};

use pact_operators::MAX_NODES;
use pact_record::OutOfMemory;
use std::alloc::Global;
use std::marker::Model;

/// The largest number of workers of a physical plan.
pub const MAX_WORKERS: usize = 16;

type Marks = [[bool; MAX_WORKERS]; MAX_NODES];

/// Instances that may be able to go on, by their numbers and workers, the next one last. Each is listed at most once,
/// so the list stays short. The list matters only for speed: an event of an unlisted instance is found by a search of
/// all instances.
#[derive(Drop)]
pub(crate) struct Ready {
    stack: Vec<(u32, u32)>,
    marks: Marks,
}

impl Model for Ready {
    ghost use Rattle.flow_core.specs.Listed.{IsKept, ReadyData};

    ghost Value = { ReadyData };

    ghost view = { λ r. record { stack = r.stack.items; marks = r.marks } };

    ghost invariant = { λ r. IsKept r.stack.items r.marks };
}

// Notes whether the instance of a worker is listed, and returns whether it was. A worker that no plan has counts as
// listed.
fn mark_of(row: &mut [bool; MAX_WORKERS], worker: u32, is_listed: bool) -> bool
    ensures was { result ≡ get_or row.old worker true }
    ensures now { row.new ≡ set row.old worker is_listed }
{
    let worker = worker as usize;
    if worker >= MAX_WORKERS {
        return true;
    }
    let was_listed = row[worker];
    row[worker] = is_listed;
    was_listed
}

// Notes whether an instance is listed, and returns whether it was. An instance that no plan has counts as listed.
fn mark(marks: &mut Marks, at: u32, worker: u32, is_listed: bool) -> bool
    ensures was { result ≡ is_marked marks.old at worker }
    ensures now { marks.new ≡ with_mark marks.old at worker is_listed }
{
    let at = at as usize;
    if at >= MAX_NODES {
        return true;
    }
    mark_of(&mut marks[at], worker, is_listed)
}

impl Ready {
    pub(crate) fn new(alloc: Global) -> Ready
        ensures { result ≡ record { stack = []; marks = replicate 33 (replicate 16 false) } }
    {
        Ready {
            stack: Vec::new(alloc),
            marks: [[false; MAX_WORKERS]; MAX_NODES],
        }
    }

    /// Lists an instance as the next one, unless it is listed already.
    pub(crate) fn push(&mut self, at: u32, worker: u32) -> Result<(), OutOfMemory>
        ensures { OnOk result (self.new ≡ pushed self.old at worker) }
    {
        self.stack.reserve(1)?;
        if !mark(&mut self.marks, at, worker, true) {
            self.stack.push_reserved((at, worker));
        }
        Ok(())
    }

    /// Removes and returns the next one.
    pub(crate) fn pop(&mut self) -> Option<(u32, u32)>
        ensures { IsPopped self.old result self.new }
    {
        let (at, worker) = self.stack.pop()?;
        mark(&mut self.marks, at, worker, false);
        Some((at, worker))
    }
}
