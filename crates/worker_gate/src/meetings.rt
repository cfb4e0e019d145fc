//! A gate at which all workers meet.

ghost use Rattle.std.specs.Prelude.{◌≤◌, ◌<◌};

use crate::gates::{Act, Gate};
use std::sync::atomic::{AtomicU64, Ordering};
use std::thread;

/// At this gate each worker waits at its first attempt until every worker has reached its own, or until a number of
/// turns is over.
#[derive(Drop)]
pub struct MeetGate {
    // A bit for each worker.
    all: u64,
    turns: u64,
    // The bits of the workers that have come, and of those that saw all others.
    came: AtomicU64,
    saw: AtomicU64,
    ends: [AtomicU64; 16],
}

// A worker's bit. There are at most 16 workers, and a number of 16 or more has no bit.
fn bit_of(worker: u32) -> u64 {
    if worker < 16 { 1u64 << worker } else { 0 }
}

impl MeetGate {
    /// A gate to which no worker has come. In each turn a waiting worker checks once for the others and yields.
    pub fn new(workers: u32, turns: u64) -> MeetGate
        requires { (1 ≤ workers) × (workers ≤ 16) }
    {
        MeetGate {
            all: (1u64 << workers) - 1,
            turns,
            came: AtomicU64::new(0),
            saw: AtomicU64::new(0),
            ends: std::array::from_fn(|_| AtomicU64::new(0)),
        }
    }

    fn has_all(&self, bits: &AtomicU64) -> bool {
        bits.load(Ordering::SeqCst) & self.all == self.all
    }

    // Waits for the others at the worker's first attempt.
    fn meet(&self, bit: u64) {
        if self.came.fetch_or(bit, Ordering::SeqCst) & bit != 0 {
            return;
        }
        for _ in 0..self.turns {
            if self.has_all(&self.came) {
                break;
            }
            thread::yield_now();
        }
        if self.has_all(&self.came) {
            self.saw.fetch_or(bit, Ordering::SeqCst);
        }
    }

    /// Whether every worker saw all the others at its first attempt, so that all of them were at work at once. It reads
    /// the atomics at the time of the call, and no contract says anything about it: call it after the workers have
    /// returned.
    pub fn met(&self) -> bool {
        self.has_all(&self.saw)
    }

    /// How often the gate was called for the worker with `Act::End`; 0 for a number of 16 or more. No contract says
    /// anything about it either.
    pub fn ends(&self, worker: u32) -> u64 {
        match self.ends.get(worker as usize) {
            Some(count) => count.load(Ordering::SeqCst),
            None => 0,
        }
    }
}

impl Gate for MeetGate {
    fn before(&self, worker: u32, act: Act) {
        if act == Act::End {
            if let Some(count) = self.ends.get(worker as usize) {
                count.fetch_add(1, Ordering::SeqCst);
            }
        }
        self.meet(bit_of(worker));
    }
}
