//! Partial groups before shipping: which functions of a Reduce may be split into a sender and a merger, and what the
//! two do.
//!
//! Some functions have one loop over their group, which computes sums, least or greatest values. For these the sender
//! can be called for each part of a group, and the merger for the sender's records. The merger then emits what the
//! function emits for the whole group. `specs/Combinable` says which functions these are. `specs/Halves` defines the
//! sender and the merger, and `specs/Splits` states the law of the three. `specs/CombinedPrograms` has the combined
//! plan.
#![tactic(auto)]

mod accumulators;
mod combining;
mod deciding;
mod fields;
mod halves;
mod parts;
mod pieces;
mod room;
mod sizes;
mod slots;
mod uses;

pub use combining::{Combined, combine};
pub use deciding::combinable;
pub use halves::partial;
pub use parts::Partial;
pub use slots::Slot;
