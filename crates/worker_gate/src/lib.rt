//! Gates at which workers can be held, and the flags by which workers report that they have started or left.
//!
//! A worker calls a `Gate` before each attempt to put or to take a note, and before an instance ends. With `OpenGate`
//! it goes on at once, `MeetGate` makes all workers meet at their first attempt, and `HoldGate` holds one of them back.
//! A gate returns nothing to a worker. No contract here says what an atomic holds: the results of `MeetGate` and of
//! `Flags` are tested, not proved, and no promise about a run depends on them. Nothing here takes memory.
#![tactic(auto)]

mod flags;
mod gates;
mod holding;
mod meetings;

pub use flags::Flags;
pub use gates::{Act, Gate, OpenGate};
pub use holding::HoldGate;
pub use meetings::MeetGate;
