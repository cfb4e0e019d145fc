//! What in a program is legal but seldom meant.
//!
//! `program_hints` looks at the program alone, `size_hints` also at how many rows its sources have. Each hint is of a
//! `Hint`'s kind, and names an operator, a function or a statement by its number.
//!
//! - `nulls` finds fields that are Null always, and `columns` columns that nobody reads.
//! - `dropped` finds fields of the sink that a function leaves out.
//! - `operations` finds operations on values of another type than they want.
//! - `checks` has what clauses say of hints: `program_hints` returns no hint that doesn't pass.
//! - `sizes` finds what takes long over many rows. `function_hints` has what a function's statements alone show.
#![tactic(auto)]

mod checks;
mod columns;
mod dropped;
mod hints;
mod nulls;
mod operations;
mod sizes;
mod types;

pub use function_hints::{Hint, HintList, Register};
pub use hints::{program_hints, unread_columns};
pub use sizes::{LARGE_PAIRS, LARGE_ROWS, size_hints};
