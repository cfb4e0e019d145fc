//! Whether the outputs of a function depend on the order of the records inside its groups.
//!
//! `order_test` judges the loops of a function by its registers: which are live, which are accumulators, and which are
//! used only within a turn. The rules are in `specs/`: `Registers`, `Liveness`, `Accumulators` and `OrderFree`.
//! `Permutes` says what a function that passes promises.
#![tactic(auto)]

mod accumulators;
mod liveness;
mod loops;
mod order;
mod registers;
mod uses;

pub use accumulators::Accumulation;
pub use order::order_test;
