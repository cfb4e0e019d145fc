//! Tests of records by key, over what the libraries make public: lists in an arena, and both strategies beside the
//! plain one.
//!
//! A crate with tests is proved twice, with them and without, so the tests have a crate of their own.
#![tactic(auto)]

#[cfg(test)]
mod chain_tests;
#[cfg(test)]
mod strategy_tests;
#[cfg(test)]
mod tables;
