//! The rules of programs, and the program of a draft.
//!
//! `check_program` tests the rules on a draft, one after another, and makes the `Program`, in which names are resolved
//! to numbers and the plan is a tree. `specs/ProgramRules.antt` has the rules and their order. `rule_tests` and
//! `attribute_tests` test one declaration, and `first_breaks` searches for the first that breaks a rule. A `Candidate`
//! is a draft with the names that the tests look up. `resolving` makes sources, operators and the sink's fields from
//! declarations, and `written_plans` makes the plan.
#![tactic(auto)]

mod attribute_tests;
mod candidates;
pub mod checking;
mod counts;
mod first_breaks;
mod gathering;
mod name_lists;
mod name_tables;
pub mod program_rules;
mod reached;
mod resolving;
mod rule_tests;
mod written_plans;

pub use checking::{NotProgram, check_program};
pub use program_rules::ProgramRule;
