//! Runs a function of three-address code.
//!
//! A call is run on a `Machine`: the registers, the records bound to loops, and what was emitted
//! so far. `call_map` is a call for one record, `call_pair` for two, `call_group` for the records of a
//! group, and `call_cogroup` for the groups of either side. `map_into` and the others append to a list,
//! and take their memory from a `Scratch`.
//!
//! `map_rows` calls a function for each record of a bag, and `match_rows` and `cross_rows` for pairs of
//! records of two bags.
#![tactic(auto)]

mod calls;
mod endings;
mod inputs;
mod machines;
mod number_operations;
mod pairing;
mod registers;
mod runs;
mod scratches;

pub use calls::{
    call_cogroup, call_group, call_map, call_pair, cogroup_into, group_into, map_into, pair_into,
};
pub use pairing::{cross_rows, map_rows, match_rows};
pub use scratches::Scratch;
