//! Which word of a command line is wrong, what it takes, and how the words of each command are written.
//!
//! `tables` has the commands with their operands and options, and `usage` finds the wrong word by trying others.
//! `general` has the help text, and explains a fault without its program.
#![tactic(auto)]

pub mod general;
pub mod tables;
pub mod usage;

pub use general::{
    is_of_program, put_building, put_faults, put_help, put_rule, put_status, put_usage_line,
};
pub use usage::{are_taken, put_all_usage, put_refused_words};
