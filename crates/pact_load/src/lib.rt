//! From program text to program, and from bytes to rows: what is read before a plan is chosen.
//!
//! - `load` reads a program's file and then the files of its sources from a feed.
//! - `files` reads a named file whole.
//! - `programs` goes from a text to a program, and `loading` from files to a program and the rows of its sources.
//! - `readers` says what makes the rows of a source.
//! - `named_sources` finds a source by its name.
//! - A `Refusal` says why a call gives no answer, and `refusal_lines` has the lines for what the files decide.
//!
//! `specs/Loading` defines the order in which files are read, as stages one after the other (`specs/Stages`).
//! `specs/Answers` defines what a call's answer says about a stage.
#![tactic(auto)]

mod files;
pub mod loaded;
mod loading;
mod named_sources;
mod programs;
pub mod readers;
mod refusal_lines;
pub mod refusals;

pub use loaded::{Loaded, is_source, push_rows};
pub use loading::{load, load_program, load_sources, load_text};
pub use named_sources::source_named;
pub use programs::{program_of, text_refused};
pub use readers::{CalledReads, ReadAlone, SourceReader};
pub use refusals::Refusal;
