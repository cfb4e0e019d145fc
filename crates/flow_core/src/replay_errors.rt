//! Why a list of events can't be replayed.

use crate::worlds::World;
use local_strategy::Local;

/// Why not every event of a list happened.
#[derive(Drop)]
pub enum Replay<L: Local> {
    /// The first event that can't happen, by its place in the list, and the world before it.
    NotEnabled { index: usize, world: World<L> },
    /// Out of memory.
    Memory,
}
