//! Plans as trees of numbers, and physical plans: how records go from worker to worker, and who sends no more.
//!
//! A number represents an operator or a source of a program. The crates above say which of them it is and what it does.
//! A `Plan` holds its nodes in an array, each operator before its inputs, so that it is copied without memory.
//! Contracts see it as a tree.
//!
//! `ship_below` returns the ship of an edge by the tree that the edge leaves. `parts_within` takes a tree apart into
//! inputs with which `ship_below` may be called.
#![tactic(auto)]

mod edges;
pub mod physicals;
pub mod plans;
mod preorders;
pub mod senders;
pub mod shapes;

pub use edges::{parts_within, ship_below};
pub use physicals::{Physical, Ship};
pub use plans::{Parts, Plan};
pub use preorders::MAX_NODES;
pub use senders::EndedSenders;
pub use shapes::Shape;
