//! The program that a drill runs over generated rows, and the summary of the run.
//!
//! The program is made from its text, which is a constant. It is proved that the text can be read and that it breaks no
//! rule, so out of memory is the only error.
#![tactic(auto)]

mod programs;
mod summaries;

pub use programs::drill_program;
pub use summaries::summary_text;
