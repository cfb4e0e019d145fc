//! Lines of a text, and the words of a line.
//!
//! `read_words` reads one line into its words, with literals decoded to their bytes. A `Cursor` reads these words from
//! the left; each call reads the word that is expected next. `specs/LineGrammar.antt` says which bytes spell which
//! words, and which faults a line can have before its words are looked at. `specs/Slots.antt` says what can be expected
//! of a word, and which fault a word has that doesn't fit.
#![tactic(auto)]

mod cursors;
pub mod faults;
pub mod line_words;
pub mod lines;
mod operands;
pub mod word_reading;

pub use cursors::Cursor;
pub use faults::NotRead;
pub use line_words::{LineWord, LineWords, is_word};
pub use lines::{TextFault, first_line, line_at, trim_line};
pub use operands::{FieldWord, is_in_form, is_in_range, record_in, value_in};
pub use word_reading::read_words;
