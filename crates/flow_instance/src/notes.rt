//! The notes on pipes, the wants of an instance, and the events of a run.

use pact_bag::Rows;

/// What goes along a pipe: a batch, which is never empty, or the mark that no more will come.
#[derive(Debug, Drop)]
pub enum Note {
    Batch(Rows),
    End,
}

/// What an instance can do next.
#[derive(Clone, Copy, Debug, PartialEq, Eq)]
pub enum Want {
    /// Take a note at this port.
    Take(u32),
    /// Put a note on the pipe to this worker.
    Put(u32),
    /// End, since every port has ended and every note has gone out.
    End,
    /// Nothing, since it has ended.
    Done,
}

/// A pipe, identified by the operator or source that sends along it, and by the two workers.
#[derive(Clone, Copy, Debug, PartialEq, Eq)]
pub struct PipeId {
    pub edge: u32,
    pub from: u32,
    pub to: u32,
}

/// One step of a run.
#[derive(Clone, Copy, Debug, PartialEq, Eq)]
pub enum Event {
    Put(PipeId),
    Take(PipeId),
    End { at: u32, worker: u32 },
}
