//! Programs, and what plans of them mean.
//!
//! In a `Program` names are resolved to numbers, and the plan is a tree. `program_check` makes it from a draft that
//! follows the rules of programs. `attrs` and `context` compute in which fields records may have values at a place of a
//! plan. `insert` and `replace` change a program's operators. `specs/Allowed` defines which records a plan allows.
#![tactic(auto)]

pub mod attributes;
pub mod operators;
pub mod programs;

pub use attributes::{attributes_of, attrs, context};
pub use operators::{Op, copied_columns, number_name};
pub use plan_trees::{MAX_NODES, Parts, Physical, Plan, Shape, Ship};
pub use programs::{Program, insert, replace};
pub use tac_syntax::{Decl, Draft, Numbers, OpKind, ValidList, functions_of};
