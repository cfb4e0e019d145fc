//! Reads the rows of a source from CSV text on several threads, with the contract of `csv_source::read_source`.
#![tactic(auto)]

mod parts;

pub use parts::{parts_for, read_source_on_threads};
