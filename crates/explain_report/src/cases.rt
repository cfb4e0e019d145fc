//! What is printed below the line of a refusal.

use crate::declarations::put_program_fault;
use crate::files::{TEXT_LIMIT, bytes_in, put_long, put_unread, source_bytes};
use crate::functions::{Broken, put_function_fault};
use crate::texts::{put_text_fault, spot_of};
use explain_declarations::Declared;
use explain_rows::{BadPlace, put_bad_row, put_certificate_fault};
use explain_words::pages::text_of;
use explain_words::{Page, Printed, read_line};
use pact_outside::Feed;
use pact_record::OutOfMemory;
use std::alloc::Global;
use text_marks::Fault;

/// Appends which row of a source is bad, if the program has the source.
pub fn put_row_case<F: Feed>(
    alloc: Global,
    page: &mut Page,
    feed: &mut F,
    program: &[u8],
    source: &str,
    bad: BadPlace,
) -> Result<bool, OutOfMemory> {
    let Some(text) = bytes_in(alloc, feed, program, TEXT_LIMIT)? else {
        return Ok(false);
    };
    let declared = Declared::of(alloc, text.bytes())?;
    let Some(line) = declared.source_named(source.as_bytes()) else {
        return Ok(false);
    };
    let file = line.word(declared.text, 2);
    match source_bytes(alloc, feed, program, file)? {
        Some(bytes) => put_bad_row(
            alloc,
            page,
            program,
            declared.text,
            line,
            Some(bytes.bytes()),
            bad,
        )?,
        None => put_bad_row(alloc, page, program, declared.text, line, None, bad)?,
    }
    Ok(true)
}

// A case of the program's text.
fn put_text_case<'x, F: Feed>(
    alloc: Global,
    page: &mut Page,
    feed: &mut F,
    program: &[u8],
    line: &'x [u8],
    said: Printed<'x>,
) -> Result<(), OutOfMemory> {
    let Some(bytes) = bytes_in(alloc, feed, program, TEXT_LIMIT)? else {
        return Ok(());
    };
    let text = bytes.bytes();
    match said {
        Printed::Text { line, what, .. } => {
            let spot = spot_of(alloc, text, Fault { line, what })?;
            put_text_fault(alloc, page, program, text, what, &spot)
        }
        Printed::Function { name, code, at } => {
            let broken = Broken {
                name,
                code,
                at,
                line,
            };
            put_function_fault(alloc, page, program, text, &broken)
        }
        Printed::Program { name, code } => {
            put_program_fault(alloc, page, program, text, name, code)
        }
        _ => Ok(()),
    }
}

/// Appends what is wrong, below the line or lines that `pact` prints for the program in that file.
pub fn put_case<F: Feed>(
    alloc: Global,
    page: &mut Page,
    feed: &mut F,
    program: &[u8],
    line: &[u8],
) -> Result<(), OutOfMemory> {
    let (first, more) = match text_of(line).split_once("\n") {
        Some(both) => both,
        None => (text_of(line), ""),
    };
    let Some(said) = read_line(first) else {
        return Ok(());
    };
    match said {
        Printed::CannotRead { name } => put_unread(alloc, page, feed, program, name.as_bytes()),
        Printed::Long { name, limit } => {
            put_long(alloc, page, feed, program, name.as_bytes(), limit)
        }
        Printed::Row {
            source,
            row,
            column,
            why,
        } => {
            let bad = BadPlace { row, column, why };
            put_row_case(alloc, page, feed, program, source, bad)?;
            Ok(())
        }
        Printed::Certificate { number, step, why } => {
            put_certificate_fault(page, number, step, why, more)
        }
        _ => put_text_case(alloc, page, feed, program, line, said),
    }
}
