//! What workers report to each other.

use crossbeam_utils::CachePadded;
use std::sync::Wait;
use std::sync::atomic::{AtomicU64, Ordering};
use std::time::Duration;

/// How many workers have started, and whether one has left unfinished. No contract says what a flag holds.
#[derive(Drop)]
pub struct Flags {
    workers: u32,
    started: CachePadded<AtomicU64>,
    gone: CachePadded<AtomicU64>,
}

impl Flags {
    /// Flags for this number of workers, none of which has started or left.
    pub fn new(workers: u32) -> Flags {
        Flags {
            workers,
            started: CachePadded::new(AtomicU64::new(0)),
            gone: CachePadded::new(AtomicU64::new(0)),
        }
    }

    /// One more worker has started. Each worker calls it once.
    pub fn start(&self) {
        self.started.fetch_add(1, Ordering::SeqCst);
    }

    /// A worker leaves unfinished. This wakes those that nap.
    pub fn leave(&self) {
        self.gone.store(1, Ordering::SeqCst);
        self.gone.wake_all();
    }

    /// Leaves the processor to other threads for about that time, or until a worker leaves unfinished. It may return at
    /// once.
    pub fn nap<R: Wait>(&self, rt: &R, time: Duration) {
        self.gone.park_timeout(rt, 0, time);
    }

    /// Whether as many workers have started as there are.
    pub fn all_started(&self) -> bool {
        self.started.load(Ordering::SeqCst) >= u64::from(self.workers)
    }

    /// Whether a worker has left unfinished.
    pub fn left(&self) -> bool {
        self.gone.load(Ordering::SeqCst) != 0
    }
}
