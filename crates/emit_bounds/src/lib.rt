//! How many records a call of a function emits, at least and at most.
//!
//! The rules are in `tac_syntax`, `specs/EmitBounds.antt`; every call keeps to them.
#![tactic(auto)]

mod counting;

pub use counting::{MANY, bounds};
