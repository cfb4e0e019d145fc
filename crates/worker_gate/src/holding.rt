//! A gate that holds one worker back.

use crate::gates::{Act, Gate};
use std::hint;

/// This gate makes one worker spin for a number of turns before each of its attempts, and lets every other worker go on
/// at once. It waits for no other worker and keeps no record.
#[derive(Drop)]
pub struct HoldGate {
    worker: u32,
    turns: u64,
}

impl HoldGate {
    /// A gate for the worker with that number; if no worker has it, the gate holds nobody. In each turn the processor
    /// is given a spin hint; the thread isn't yielded.
    pub fn new(worker: u32, turns: u64) -> HoldGate {
        HoldGate { worker, turns }
    }
}

impl Gate for HoldGate {
    fn before(&self, worker: u32, _act: Act) {
        if worker != self.worker {
            return;
        }
        for _ in 0..self.turns {
            hint::spin_loop();
        }
    }
}
