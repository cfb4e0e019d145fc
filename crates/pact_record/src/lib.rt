//! Values, records and byte strings, which every other crate uses.
//!
//! A value is Null, a whole number or a text; `apply1` and `apply2` are the operations on values. A record is a list of
//! values, one for each field of the program, so a field number is a place in that list. `Fields` is a set of field
//! numbers, and `Keys` is a list of key fields. `Columns` are the fields to which a source's columns go. `Bytes` is a
//! text of any length, `Word` a short one, such as a name.
#![tactic(auto)]

pub mod bytes;
pub mod columns;
pub mod field_sets;
mod hashing;
pub mod keys;
pub mod operations;
mod pairs;
pub mod records;
mod text_storage;
pub mod texts;
pub mod values;
pub mod words;

pub use bytes::Bytes;
pub use columns::{Column, Columns};
pub use field_sets::Fields;
pub use keys::{Keys, MAX_KEYS};
pub use operations::{Op1, Op2, apply1, apply2};
pub use records::{MAX_FIELDS, Record};
pub use std::alloc::AllocError as OutOfMemory;
pub use texts::{MAX_TEXT, NotText, Text};
pub use values::Value;
pub use words::{MAX_WORD, Word};
