//! Evaluates a plan operator by operator, on one thread.
//!
//! It is written to be compared with the definition of allowed bags and not to be fast: it finds records with equal
//! keys by going through all records. `evaluating` goes down the plan and counts; `grouping` has Reduce and CoGroup.
#![tactic(auto)]

mod evaluating;
mod given_rows;
mod grouping;

pub use evaluating::evaluate;
