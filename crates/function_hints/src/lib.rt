//! What in a function is legal but seldom meant, judged by its statements alone.
//!
//! - `lists` has all kinds of hints, and lists of them.
//! - `unset` finds registers that are read before they are set, and `unread` those that are never read.
//! - `least` finds least values of registers that are always Null.
//! - `silent` finds statements after which nothing is emitted.
//! - `orders` finds statements that depend on the order of a group.
#![tactic(auto)]

pub mod least;
pub mod lists;
pub mod orders;
pub mod registers;
pub mod silent;
pub mod statements;
pub mod unread;
pub mod unset;

pub use least::note_least;
pub use lists::{Hint, HintList, Register};
pub use orders::{inner_loop, order_fault};
pub use registers::{Registers, bit};
pub use silent::silent_in;
pub use statements::{assigned_in, behind, inside, inside_other, number_of};
pub use unread::note_unread;
pub use unset::note_unset;
