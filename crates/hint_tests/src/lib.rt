//! Tests of what is said of files and programs: places in files, compared with the rows that are read, and hints.
//!
//! A crate with tests is proved twice, with them and without, so the tests have a crate of their own.
#![tactic(auto)]

#[cfg(test)]
mod file_tests;
#[cfg(test)]
mod program_tests;
