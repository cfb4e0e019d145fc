//! A program's findings and its plans, as text.
//!
//! `specs/FoundText` has the text of the findings for one operator, and `specs/SetsText` the line of each operator and
//! all lines of a program. `specs/PlanText` has the text of a chosen plan, and `specs/CountsText` that of the numbers
//! of records in a run of a plan.
#![tactic(auto)]

mod counts;
mod findings;
mod operator_lines;
pub mod plans;

pub use counts::{counts_text, push_keeps, push_partials};
pub use findings::{anchor_word, found_text, push_number};
pub use operator_lines::sets_text;
pub use plans::{Shown, plan_text};
