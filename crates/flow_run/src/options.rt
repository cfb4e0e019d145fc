//! The options of a run.

/// The number of workers on which a plan runs, the most records in a batch, and the most notes in a pipe.
#[derive(Clone, Copy, Debug, PartialEq, Eq)]
pub struct Options {
    pub workers: u32,
    pub batch: u32,
    pub depth: u32,
}
