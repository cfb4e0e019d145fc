//! How records go between the workers that run a plan: where they are placed, which ships are legal, and the layouts of
//! a plan.
//!
//! A placement is a list of fields whose values determine the worker of each record. If an operator needs records
//! together, its edges either keep a placement that already ensures that, or ship. `specs/Ships` has the rules, over
//! what is known of each operator in its plan (`specs/PlanFacts`). `specs/Layouts` has the layouts: a list of choices,
//! one for each operator, calls for one ship on each edge. If ships are legal, the records that an operator needs
//! together meet (`specs/Meets`), and what all instances emit is one evaluation of the plan. `layout` and `legal_ship`
//! have clauses for both.
//!
//! `layouts`, `layout` and `legal_ship` are for one plan at a time. For many layouts of one plan, `known` computes once
//! what is known of its operators. For many plans, `known_after` computes only what earlier plans didn't have. A caller
//! with its own findings fills a `Table` with what `OpFacts::of` makes of them, and `layout_known` needs only the
//! table. `chosen` returns the ways of a layout's number. `left_ship`, `right_ship`, `only_ship`, `placed_over` and
//! `placed_both` take one step each, without a physical plan.
#![tactic(auto)]

mod all_layouts;
mod earlier_findings;
mod edges;
mod knowing;
mod laying;
mod legality;
mod numbering;
mod placements;
mod tables;
mod ways;

pub use all_layouts::{layout, layout_in, layout_known, layouts};
pub use earlier_findings::EarlierFindings;
pub use edges::{left_ship, only_ship, right_ship};
pub use knowing::{known, known_after, nothing_found};
pub use legality::legal_ship;
pub use numbering::{choices_of, chosen};
pub use placements::{placed_both, placed_over};
pub use tables::{OpFacts, Table};
pub use ways::{Way, Ways};
