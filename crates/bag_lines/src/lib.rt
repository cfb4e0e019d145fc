//! The lines of a bag: its records cut to listed fields, sorted, as CSV text. One thread makes the text, or several
//! make a part each.
#![tactic(auto)]

mod lines;

pub use lines::{parts_for_rows, sorted_lines, sorted_lines_on_threads};
