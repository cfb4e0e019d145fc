//! The plans that legal exchanges lead to, as a list, and the choice among them.
//!
//! `enumerate` lists the plan as written, and then, as long as there is room, what the exchanges of listed plans yield.
//! Each plan is listed once, with the exchange that led to it, so `steps_of` returns how it came about. Findings about
//! an operator are kept for each context that listed plans give it, in `reorder_pair`'s `Findings`. That crate's
//! `specs/Reach` defines the plans that there are to list, and `specs/Listing` here defines the list in its order.
//!
//! `choose` takes the first pair of a plan and one of its layouts that costs least; `specs/Choices` defines it. Each
//! plan is taken apart once, into the rows of `plan_rows`. A layout is weighed only from the first row in which it
//! differs from the layout before.
//!
//! A caller that chooses among the same plans repeatedly lists them by `enumerate_and_analyse`, which returns what is
//! known of their operators too (`specs/KnownPlans`). `choose_known` chooses from that, and analyses nothing.
#![tactic(auto)]

mod analysing;
pub mod choosing;
pub mod entries;
mod enumerating;
mod known_plans;
mod listings;
mod plan_rows;
mod steps;
mod weights;

pub use analysing::enumerate_and_analyse;
pub use choosing::{Chosen, choose, choose_known};
pub use entries::{Entries, Entry};
pub use enumerating::enumerate;
pub use known_plans::KnownPlans;
pub use listings::Listed;
pub use steps::steps_of;
