//! Exchanges among Map, Match and Cross: where a rule has a place, whether the exchange is legal there, and the plan
//! after it.
//!
//! A legal exchange keeps what the plan allows over every input. `specs/Rules` has the rules. `specs/Conditions` has
//! the conditions on the two operators, in the order in which a refusal is reported. `specs/Legal` defines when an
//! exchange is legal. All of this covers every rule; `legal_pair` and `apply_pair` serve the rules without groups, and
//! `reorder_group` has the calls for every rule. All of them call `legal_but_for_groups` and `swapped_plan`.
//!
//! `neighbours` returns the two operators of an exchange with their contexts, `found_for` the findings about an
//! operator in a context, and `found` both at once, for a caller that stores no findings. `Findings` stores them, for a
//! caller that meets the same operators again. `found_in_plan` returns the findings about one operator in its context
//! in a plan.
#![tactic(auto)]

pub mod condition_lists;
mod corners;
mod exchanges;
pub mod finding;
pub mod findings;
pub mod legality;
pub mod rules;
mod trees;

pub use condition_lists::ConditionList;
pub use exchanges::{
    apply_pair, exchanged_tree, found, legal_but_for_groups, legal_pair, neighbours, swapped_plan,
};
pub use finding::{Found, Neighbours, found_for, found_in_plan};
pub use findings::Findings;
pub use legality::{Clash, Condition, NotLegal, least_common};
pub use rules::{Exchange, Role, Rule};
pub use trees::kind_of;
