//! Programs as text. `read_program` reads exactly the texts of programs, and reports the first fault of any other text.
//! `write_program` writes a program in its canonical spelling, which is read back as the same program.
//!
//! A program's first two lines and the lines of its declarations are read from their words. `read_version`,
//! `read_field_count` and `read_declaration` accept exactly the valid lines, and `write_declaration` writes the line of
//! a declaration. Whether the declarations fit together isn't checked here.
#![tactic(auto)]

mod declaration_reading;
mod first_lines;
mod program_reading;
mod program_writing;

pub use declaration_reading::read_declaration;
pub use first_lines::{read_field_count, read_version};
pub use program_reading::read_program;
pub use program_writing::{write_declaration, write_program};
