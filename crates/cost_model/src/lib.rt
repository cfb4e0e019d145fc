//! How many records the sources and operators of a plan are expected to emit, and what a physical plan is expected to
//! cost.
//!
//! Estimates are computed upwards from the row counts of the sources, by each operator's kind and by how many records a
//! call of its function emits. A cost is the sum of what each operator takes and of what each edge ships, in records.
//! All numbers are capped at the greatest one of 64 bits. `specs/Estimates` and `specs/Costs` have the rules.
//!
//! `estimate_above_one`, `estimate_above_two`, `edge_cost` and `plus` are the single steps, for a caller that compares
//! many physical plans of one plan.
#![tactic(auto)]

mod costs;
mod estimates;

pub use costs::{cost, edge_cost};
pub use estimates::{estimate, estimate_above_one, estimate_above_two, estimate_of, plus, rows_at};
