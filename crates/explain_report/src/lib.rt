//! Explanations: what `pact` answers to the words of a command line if it refuses them or the files that they name,
//! and what is wrong there, in plain words.
//!
//! `explain` does what `pact` does until a refusal is decided. Its text begins with the line that `pact` prints, and
//! `specs/Explaining` says that this line is the one that the stages of `pact_load` decide. What follows that line is
//! found by asking the readers again, with other words at the faulty place.
//!
//! - `loading` reads the files of a command, `certificates` checks a certificate, and `explaining` chooses by the words.
//! - `texts` explains text faults, `functions` rules of functions, `declarations` rules of programs, and `files` files
//!   that can't be read.
//! - `warnings` lists what is legal but seldom meant.
//! - `lines` explains a line that `pact` printed.
#![tactic(auto)]

mod cases;
mod certificates;
mod declarations;
mod explaining;
pub mod explanations;
mod files;
mod functions;
mod lines;
mod loading;
mod texts;
mod trials;
mod warnings;

pub use explaining::{explain, explain_command, explain_in_text};
pub use explanations::Explanation;
