//! Records that an instance keeps by key.
//!
//! `Local` says what such an object means, and never how it finds the records of a key. `ListLocal` implements it by
//! scanning.
//!
//! `Groups` holds the records of each key side by side, and lends each group as it is. It leaves open how the group of
//! a key is found: `ListLocal` scans all groups, and other crates hash or search sorted records.
#![tactic(auto)]

pub mod groups;
pub mod list_locals;
pub mod locals;
mod scanning;

pub use groups::Groups;
pub use list_locals::ListLocal;
pub use locals::Local;
