//! What in a source's file is legal but seldom meant.

use crate::rows::put_number_count;
use csv_places::{FileHint, file_hints};
use explain_words::Page;
use explain_words::pages::Piece::{Number, Quote, Say};
use pact_record::{Columns, OutOfMemory};
use std::alloc::Global;

fn cure(page: &mut Page, words: &'static str) -> Result<(), OutOfMemory> {
    page.line(&[Say("cure: "), Say(words)])
}

fn put_file_place(page: &mut Page, file: &[u8], line: u64) -> Result<(), OutOfMemory> {
    page.line(&[Say("warning: "), Quote(file), Say(":"), Number(line)])
}

fn put_file_hint(page: &mut Page, file: &[u8], hint: &FileHint) -> Result<(), OutOfMemory> {
    match hint {
        FileHint::LongField {
            row,
            line,
            lines,
            count,
            ..
        } => {
            put_file_place(page, file, *line)?;
            page.line(&[
                Say("a quoted field of row "),
                Number(*row),
                Say(" spans "),
                Number(*lines),
                Say(" lines; fields over more than one line: "),
                Number(*count),
            ])?;
            cure(
                page,
                "close the quote on its line, if the lines below are rows of their own",
            )
        }
        FileHint::NeverClosed { row, line, .. } => {
            put_file_place(page, file, *line)?;
            page.line(&[
                Say("a quote in row "),
                Number(*row),
                Say(" is never closed, so the rest of the file is one field"),
            ])?;
            cure(page, "close the quote, or delete it")
        }
        FileHint::HeaderLike { line } => {
            put_file_place(page, file, *line)?;
            page.line(&[Say("the first row may be a header, and it is read as a row of values")])?;
            cure(
                page,
                "if it is a header, delete the line: a source's file has none",
            )
        }
        FileHint::NotNumbers {
            column,
            fault,
            line,
            count,
            ..
        } => {
            put_file_place(page, file, *line)?;
            put_number_count(page, *column, *fault, *line, *count)
        }
    }
}

/// Appends what in a source's file is legal but seldom meant.
pub fn put_file_hints(
    alloc: Global,
    page: &mut Page,
    file: &[u8],
    text: &[u8],
    columns: &Columns,
) -> Result<(), OutOfMemory> {
    for hint in file_hints(alloc, text, columns)?.items() {
        put_file_hint(page, file, hint)?;
    }
    Ok(())
}
