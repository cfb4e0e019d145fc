//! Where the rows and fields of a CSV file are, and what in a file is legal but seldom meant.
//!
//! `scanning` reads bytes as csv's default reader does, and finds where fields and rows end. `places` finds a row and a
//! column by their numbers. `numbers` says why a value isn't a number, and `hints` looks through a whole file.
#![tactic(auto)]

mod headers;
mod hints;
pub mod lists;
pub mod numbers;
pub mod places;
mod scanning;
mod shapes;
mod spots;

pub use headers::is_name;
pub use hints::file_hints;
pub use lists::{FileHint, FileHintList};
pub use numbers::{NumberFault, number_fault};
pub use places::{Place, place_of, plain_value};
