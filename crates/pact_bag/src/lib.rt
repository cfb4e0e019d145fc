//! Bags of records as lists: rows of one width, and their order; and which records of two bags match.
#![tactic(auto)]

pub mod counts;
mod null_keys;
mod orders;
pub mod outcomes;
mod prefixes;
pub mod rows;
mod sort_words;
mod sorting;

pub use counts::Counts;
pub use null_keys::has_null;
pub use outcomes::Outcome;
pub use rows::{Inputs, NoRoom, Rows, project, sort_rows, sort_rows_by};
