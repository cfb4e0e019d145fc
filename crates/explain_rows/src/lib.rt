//! Bad rows and refused certificates in words, and what in a program or a file is legal but seldom meant.
//!
//! `rows` explains a bad row, `certificates` a refused certificate, `file_hints` what is seldom meant in a file, and
//! `hint_words` has the sentence and the cure for each hint about a program, and `hint_places` what it points at.
#![tactic(auto)]

pub mod certificates;
pub mod file_hints;
pub mod hint_places;
pub mod hint_words;
pub mod rows;

pub use certificates::put_certificate_fault;
pub use file_hints::put_file_hints;
pub use hint_words::put_hint_words;
pub use rows::{BadPlace, put_bad_row};
