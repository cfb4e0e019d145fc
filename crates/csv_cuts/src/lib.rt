//! Finds a place where a CSV text can be cut in two, so that each part can be read on its own.
//!
//! The records of the text are then those of the first part followed by those of the rest. The cut is right after a line
//! feed that isn't quoted, and never before a byte order mark, since a reader removes a mark at the beginning of its text.
#![tactic(auto)]

mod cuts;

pub use cuts::cut_near;
