//! Decides which functions are valid.
//!
//! A function is gone through once for each rule, in the order of the rules' codes. A refusal gives the first rule that
//! is broken, and the first statement in text order that breaks it.
#![tactic(auto)]

mod breaks;
mod places;
mod validation;
mod walks;

pub use validation::{Refused, validate};
