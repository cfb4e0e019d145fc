//! The words of the command line: the command that they ask for, and its options.
//!
//! Each command is a definition of the library clap, which reads its words. Callers use `IsAsked` and `AreRefused` of
//! `specs/Words`, and four laws about them. Words ask for at most one command, and for none if they are refused
//! (`OneAsked`). Words ask for a command or are refused (`AskedOrRefused`). The command's numbers are in their ranges
//! (`NumbersInRange`). Only this crate knows how words are read.
//!
//! Clap takes any text as the word of `--local`. Whether it names a strategy is checked afterwards, so words can be
//! refused for that, too (`AreRefusedBy`).
//!
//! To add an option, add a rule to `specs/Arguments` with a function in `arguments`, and a line to the definition and
//! to the reader of each command that takes it.
#![tactic(auto)]

mod arguments;
pub mod commands;
mod definitions;
mod parsing;
mod reading;
mod values;

pub use commands::{Command, LocalStrategy, Options, Refused, Rewrites};
pub use reading::read_words;
