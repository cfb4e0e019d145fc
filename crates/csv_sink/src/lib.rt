//! Writes rows as CSV text, with csv's default writer.
#![tactic(auto)]

mod writing;

pub use writing::{write_fields, write_rows};
