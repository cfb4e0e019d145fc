//! Functions as text, read and written.
//!
//! `read_function` reads the function whose text begins at a place, or reports the first fault there;
//! `write_function` writes its canonical spelling. `specs/FunctionLines.antt` says which lines are a
//! function's text, and `specs/FunctionFaults.antt` what can be wrong with one of them. A reader of more
//! than functions takes them line by line: `read_header` begins an `OpenFunction`, which takes the words
//! of the lines after it.
//!
//! Both use the lines of statements. `read_statement` reads the words of one line of a body, or reports
//! their first fault; `first_words` writes a statement's first line. `specs/StatementLines.antt` says
//! which words such a line has and where it may be, and `specs/StatementFaults.antt` what can be wrong
//! with it.
#![tactic(auto)]

pub mod building;
mod function_reading;
mod function_writing;
mod headers;
mod kind_words;
pub mod lines;
pub mod open_functions;
mod operation_words;
mod statement_reading;
mod statement_writing;
pub mod words;

pub use function_reading::read_function;
pub use function_writing::write_function;
pub use lines::{BodyLine, Place};
pub use open_functions::{OpenFunction, read_header};
pub use statement_reading::read_statement;
pub use statement_writing::{first_words, put_line, put_word};
pub use words::Words;
