//! An iteration: a program runs repeatedly, and from the second round on one source has the records of the round
//! before, cut to its columns.
//!
//! The trait `Round` is what runs in a round. `Rounds` of `iterate_plan` defines which rounds a program allows.
#![tactic(auto)]

mod iterating;
mod rounds;

pub use iterating::{Iterated, iterate};
pub use rounds::Round;
