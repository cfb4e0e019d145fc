//! Which fields of its input a function reads, writes and decides by.
//!
//! `sets` walks through a function's body with what is known of each register. For a value this is the fields that it
//! depends on and what it is known to equal; for a record, what it began as and the fields in which it may differ from
//! that. Branches are joined, loops are walked until nothing changes, and what is emitted and what decides is noted.
//! `specs/Known`, `Steps` and `Walks` have the rules, `specs/Results` what follows from them. `specs/Memos` and `Warm`
//! are about the walk that does the work: each of its loops begins from where it settled before.
#![tactic(auto)]

mod analysis;
mod bases;
mod facts;
mod found_sets;
mod memos;
mod noted;
mod noting;
mod places;
mod scopes;
mod sharing;
mod sides;
mod walks;
mod warm;

pub use analysis::sets;
pub use found_sets::Sets;
pub use sharing::{shared_context, takes_numbers};
