//! Exchanges of neighbouring operators of which one groups records, and exchanges by every rule.
//!
//! A Map moves past a Reduce or a side of a CoGroup, and a Reduce past a Match whose other side has each value of its
//! keys at most once. `reorder_pair` has the rules, defines what legal means, and checks the conditions that all rules
//! have. This crate checks the conditions on groups and on a Match.
//!
//! `legal`, `legal_for` and `apply` serve all seventeen rules. They choose among `legal_group`, `legal_group_for` and
//! `apply_group`, which serve the first thirteen, and `legal_unique`, `legal_unique_for` and `apply_unique`, which
//! serve the four of a Reduce and a Match. Those with `for` in their names take the findings about the two operators.
//! `unique` tests whether a plan has no two records with the same key values, as far as the sets and bounds of its
//! operators show. `other_is_unique` computes, by a table of findings, what `legal_for` must know about a Match.
#![tactic(auto)]

mod exchanges;
mod group_conditions;
mod group_exchanges;
mod match_conditions;
mod unique_trees;

pub use exchanges::{
    apply, apply_unique, legal, legal_for, legal_unique, legal_unique_for, other_is_unique,
};
pub use group_exchanges::{apply_group, legal_group, legal_group_for};
pub use unique_trees::unique;
