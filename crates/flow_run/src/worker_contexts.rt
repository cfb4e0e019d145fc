//! What a worker acts with.

use worker_gate::{Act, Gate};

/// A worker's number, the runtime that lets it wait, and the gate that it calls before each attempt.
#[derive(Drop)]
pub(crate) struct WorkerContext<'a, R, G> {
    pub(crate) number: u32,
    pub(crate) rt: &'a R,
    pub(crate) gate: &'a G,
}

impl<R, G: Gate> WorkerContext<'_, R, G> {
    pub(crate) fn before(&self, act: Act) {
        self.gate.before(self.number, act);
    }
}
