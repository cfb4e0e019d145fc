//! The words of `pact_explain`: what each fault is, and what a line that `pact` printed says.
//!
//! - `pages` puts texts together.
//! - `faults` has the sentences for text faults, rules, rows and certificates, one for each number.
//! - `hints` has what people usually mean by a word that the language doesn't have.
//! - `printed` reads the lines that `pact` prints.
//! - `places` has parts of texts, and shows them with marks.
//! - `text_faults` says of the word of a text fault what doesn't depend on what may be there instead.
//! - `spelling` finds the nearest word of a list.
#![tactic(auto)]

pub mod faults;
pub mod hints;
pub mod pages;
pub mod places;
pub mod printed;
pub mod spelling;
pub mod text_faults;

pub use pages::{Page, Piece};
pub use places::{Part, TextLine};
pub use printed::{Printed, read_line};
