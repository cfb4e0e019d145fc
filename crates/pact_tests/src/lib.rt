//! Tests of calls over files in memory, of streams and of records: how files are read, and what is left if a read or a
//! write fails. What a user of the program can see is tested by `tests/check`.
//!
//! A crate with tests is proved twice, with them and without, so the tests have a crate of their own.
#![tactic(auto)]

#[cfg(test)]
mod calls;
#[cfg(test)]
mod record_tests;
#[cfg(test)]
mod run_tests;
#[cfg(test)]
mod stream_tests;
