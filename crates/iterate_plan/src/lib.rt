//! Rounds of an iteration: what a round goes on with, and whether it returned what it began with.
//!
//! `specs/Rounds` defines which bags follow each other, and when an iteration ends.
#![tactic(auto)]

mod bags;
mod cutting;

pub use bags::same_bag;
pub use cutting::cut;
