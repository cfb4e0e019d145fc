//! Explanations that need no file: of the program itself, of each fault, and of a line without its program.

use crate::usage::put_all_usage;
use explain_words::faults::{
    certificate_fault, function_rule, program_rule, row_fault, status_fault, text_fault,
};
use explain_words::pages::Piece::{Number, Say};
use explain_words::{Page, Printed};
use pact_record::OutOfMemory;

/// Appends the help text.
pub fn put_help(page: &mut Page) -> Result<(), OutOfMemory> {
    page.line(&[Say("Explains why `pact` refuses a command or its files, on standard output:")])?;
    page.line(&[Say(
        "  pact_explain WORDS ..             the words of a `pact` command, such as: run sum.pact",
    )])?;
    page.line(&[Say(
        "  pact_explain --line LINE [FILE ..]  a line that `pact` printed, and programs that may have caused it",
    )])?;
    page.line(&[Say("  pact_explain --faults             what each fault is")])?;
    page.line(&[Say("  pact_explain --help               this text")])?;
    page.line(&[Say(
        "It runs no program. Its exit status is that of `pact` for the same words and files, or 0 if there is no fault.",
    )])?;
    put_all_usage(page)
}

// One fault of a table.
fn put_fault(
    page: &mut Page,
    prefix: &'static str,
    number: u32,
    words: &'static str,
) -> Result<(), OutOfMemory> {
    if words.is_empty() {
        return Ok(());
    }
    page.line(&[Say(prefix), Number(u64::from(number))])?;
    page.line(&[Say(words)])
}

/// Appends what each fault is.
pub fn put_faults(page: &mut Page) -> Result<(), OutOfMemory> {
    for number in 0..13 {
        put_fault(page, "Text fault ", number, text_fault(number))?;
    }
    for number in 0..13 {
        put_fault(page, "V", number, function_rule(number))?;
    }
    for number in 0..13 {
        put_fault(page, "P", number, program_rule(number))?;
    }
    for number in 0..13 {
        put_fault(page, "Row fault ", number, row_fault(number))?;
    }
    for status in 0..128u8 {
        put_fault(page, "Status ", u32::from(status), status_fault(status))?;
    }
    for number in 1..7 {
        put_fault(
            page,
            "Certificate fault C",
            number,
            certificate_fault(number),
        )?;
    }
    page.line(&[Say("Certificate: the shape")])?;
    page.line(&[Say(certificate_fault(0))])
}

/// Appends what an exit status means.
pub fn put_status(page: &mut Page, status: u8) -> Result<(), OutOfMemory> {
    page.line(&[Say(status_fault(status))])?;
    page.line(&[
        Say("docs/faults.md, \"Status "),
        Number(u64::from(status)),
        Say("\""),
    ])
}

/// Appends what a rule or fault of that number says.
pub fn put_rule(
    page: &mut Page,
    letter: &'static str,
    code: u32,
    words: &'static str,
) -> Result<(), OutOfMemory> {
    page.line(&[Say(words)])?;
    page.line(&[
        Say("docs/faults.md, \""),
        Say(letter),
        Number(u64::from(code)),
        Say("\""),
    ])
}

/// Appends what the launcher does while it builds.
pub fn put_building(page: &mut Page) -> Result<(), OutOfMemory> {
    page.line(&[Say(
        "No fault: a source file of `pact` has changed, or the released program can't be started here.",
    )])?;
    page.line(&[Say("docs/faults.md, \"While pact is built\"")])
}

/// Appends the words of all commands, for the line that refuses a command.
pub fn put_usage_line(page: &mut Page) -> Result<(), OutOfMemory> {
    page.line(&[Say(status_fault(2))])?;
    put_all_usage(page)?;
    page.line(&[Say("run `explain` with the words of your command to see which one is wrong")])?;
    page.line(&[Say("docs/faults.md, \"Status 2\"")])
}

/// Whether a program may have caused the line.
pub fn is_of_program(said: Printed) -> bool {
    matches!(
        said,
        Printed::CannotRead { .. }
            | Printed::Text { .. }
            | Printed::Function { .. }
            | Printed::Program { .. }
            | Printed::Row { .. }
            | Printed::Long { .. }
    )
}
