//! Records by key in a hash table.
//!
//! `GroupTable` numbers the keys in the order in which they come, and has a group of records for each. The values of
//! the key fields are hashed: one fold over the kind of each value, a number's 64 bits and a text's bytes yields a
//! 64-bit hash code. Keys with the same code share a bucket, which is a linked list of their numbers. A lookup visits
//! one bucket, and compares the row's key values with those of the first record of each group there. Keys are compared
//! by value, so a code alone never decides: a collision costs time, but changes no answer. A lookup allocates no memory
//! and copies no record.
//!
//! Until the table is sealed, each key's first record is in its group, and the later ones are in a list of one arena.
//! `seal` makes room in the groups and moves the lists there, so that the records of a key are lent side by side. It
//! also frees the arena's memory.
//!
//! Different keys nearly always have different codes. The map spreads the codes over its places, so a row usually costs
//! one code and a comparison or two. But neither the fold nor the map's own hash of a code has a secret. So an attacker
//! can choose keys that have the same code, or codes that the map puts at one place. The time for such keys grows with
//! the square of their number. `SortLocal` of `sort_local` has no such case.
#![tactic(auto)]

mod buckets;
mod codes;
mod finding;
mod gathering;
pub mod group_tables;
mod storing;

pub use group_tables::GroupTable;
