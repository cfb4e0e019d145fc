//! Which declaration or statement of a program breaks a rule, by which word, and what may be there instead.
//!
//! `declared` reads the lines of the declarations, `attributes` finds what their records have, and `finding` says what
//! is wrong with the one that `pact` reports. `reasons` says why a word of a statement breaks a rule of functions.
#![tactic(auto)]

mod attributes;
mod declared;
mod finding;
pub mod reasons;
mod rules;

pub use declared::Declared;
pub use finding::{Finding, find_rule};
