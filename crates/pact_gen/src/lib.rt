//! Generated input: rows that a seed determines, as many as are asked for.
#![tactic(auto)]

mod generating;

pub use generating::make_input;
