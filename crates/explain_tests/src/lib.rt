//! Tests of explanations: the tables of commands and options against the reader of the words, and explanations over
//! files in memory. `tests/checks/explain.bash` tests many more over the built program.
//!
//! A crate with tests is proved twice, with them and without, so the tests have a crate of their own.
#![tactic(auto)]

#[cfg(test)]
mod file_tests;
#[cfg(test)]
mod table_tests;
