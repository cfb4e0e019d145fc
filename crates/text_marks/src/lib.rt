//! Where a program's text is faulty, what may be there instead, and where its declarations and statements are.
//!
//! Nothing here knows the grammar of a line, except the first words of blocks. Each answer is found by trial: the
//! reader of programs reads the text up to a place, and its first fault decides. A trial ends the text by a blank and
//! an empty line (`specs/TextParts.antt`), so that a text that merely ends too early is reported after the line that is
//! tried, and a fault of that line at the line itself.
//!
//! - `fault_mark` marks the part of a text that has the fault that `read_program` reports.
//! - `is_accepted` says whether a word may be at a place, `expected_at` lists all that may be there, and `cures` lists
//!   the words that mend the text.
//! - `statement_line` and its neighbours find the lines of functions, statements and declarations.
#![tactic(auto)]

mod bounds;
mod curing;
pub mod expected;
mod expecting;
mod fault_marks;
mod functions;
pub mod marks;
mod placing;
mod spellings;
#[cfg(test)]
mod tests;
pub mod trials;
mod vocabulary;
mod words;

pub use bounds::{line_bounds, line_number};
pub use curing::{CureWords, cures};
pub use expected::{Expected, ExpectedList, sample};
pub use expecting::expected_at;
pub use fault_marks::fault_mark;
pub use functions::{declaration_lines, function_line, open_blocks, statement_line};
pub use marks::{Mark, marked_part};
pub use placing::with_word;
pub use trials::{Fault, first_fault, is_accepted};
pub use vocabulary::fixed_words;
pub use words::words_of_line;
