//! Tests of pipes, gates, runs, reads and lines on threads, over what the libraries make public.
//!
//! - What a pipe holds, and in which order it gives it.
//! - What gates and flags return.
//! - A run on threads gives what the run on one thread and the plain evaluation give.
//! - A source read in parts has the rows, or the first bad row, that a read by one thread reports.
//! - Lines made in parts are those that one thread makes.
//!
//! `programs` makes programs and the rows of their sources from texts, and `outcomes` compares what runs gave.
#![tactic(auto)]

#[cfg(test)]
mod csv_tests;
#[cfg(test)]
mod example_tests;
#[cfg(test)]
mod example_texts;
#[cfg(test)]
mod gate_tests;
#[cfg(test)]
mod lines_tests;
#[cfg(test)]
mod outcomes;
#[cfg(test)]
mod pipe_tests;
#[cfg(test)]
mod programs;
#[cfg(test)]
mod run_tests;
