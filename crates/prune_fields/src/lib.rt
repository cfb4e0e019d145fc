//! Field pruning: fields that nothing above reads are dropped before records are shipped.
//!
//! `need` returns the fields of a source's or an operator's records that are needed in a plan; `specs/Needs` has the
//! rule. `prune` inserts a Map on each edge over which records with unneeded fields are shipped. `specs/PrunedPlans`
//! says which edges these are. `specs/Insertions` defines the program and the physical plan with the Maps, and
//! `specs/SameAnswers` relates the results of both plans.
#![tactic(auto)]

mod keeping;
mod need_tables;
mod needs;
mod pruning;

pub use needs::need;
pub use pruning::{Kept, Pruned, prune};
