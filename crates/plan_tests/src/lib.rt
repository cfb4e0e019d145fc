//! Tests of functions, programs and plans that no command shows, over what the libraries make public: how texts are
//! written, what a call emits and in which order, what a program has, what its plans give, exchanges there and back,
//! what refuses a Reduce and a Match, how plans were listed, what they cost, and how they run in parts.
//!
//! A crate with tests is proved twice, with them and without, so the tests have a crate of their own.
#![tactic(auto)]

#[cfg(test)]
mod call_tests;
#[cfg(test)]
mod cost_tests;
#[cfg(test)]
mod evaluation_tests;
#[cfg(test)]
mod exchange_tests;
#[cfg(test)]
mod function_text_tests;
#[cfg(test)]
mod listing_tests;
#[cfg(test)]
mod program_tests;
#[cfg(test)]
mod program_text_tests;
#[cfg(test)]
mod programs;
#[cfg(test)]
mod unique_tests;
#[cfg(test)]
mod world_tests;
