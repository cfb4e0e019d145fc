//! A line that `pact` printed.

use crate::cases::{put_case, put_row_case};
use crate::explanations::refusal_line;
use crate::files::{TEXT_LIMIT, bytes_in, put_long, put_unread};
use crate::loading::run_refusal;
use crate::texts::{put_text_fault, spot_of};
use explain_rows::{BadPlace, put_certificate_fault};
use explain_usage::{is_of_program, put_building, put_rule, put_status, put_usage_line};
use explain_words::faults::{function_rule, program_rule, row_fault, text_fault};
use explain_words::pages::Piece::{Quote, Say};
use explain_words::pages::text_of;
use explain_words::spelling::last_name;
use explain_words::{Page, Printed, read_line};
use pact_outside::Feed;
use pact_record::OutOfMemory;
use std::alloc::Global;
use text_marks::{Fault, first_fault};

// ---- in general words

// Explains the line without a program that it is about.
fn put_general<F: Feed>(
    alloc: Global,
    page: &mut Page,
    feed: &mut F,
    said: Printed,
    more: &str,
) -> Result<(), OutOfMemory> {
    match said {
        Printed::OutOfMemory => put_status(page, 1),
        Printed::Usage => put_usage_line(page),
        Printed::CannotWrite => put_status(page, 4),
        Printed::CannotRead { name } => put_unread(alloc, page, feed, b"", name.as_bytes()),
        Printed::Text { what, .. } => put_rule(page, "Text fault ", what, text_fault(what)),
        Printed::Function { code, .. } => put_rule(page, "V", code, function_rule(code)),
        Printed::Program { code, .. } => put_rule(page, "P", code, program_rule(code)),
        Printed::Row { why, .. } => put_rule(page, "Row fault ", why, row_fault(why)),
        Printed::Long { name, limit } => {
            put_long(alloc, page, feed, b"", name.as_bytes(), limit)
        }
        Printed::Certificate { number, step, why } => {
            put_certificate_fault(page, number, step, why, more)
        }
        Printed::Launcher => put_status(page, 127),
        Printed::Building => put_building(page),
    }
}

// ---- in a program

// Whether `pact run` prints this line for the program.
fn is_refused_so<F: Feed>(
    alloc: Global,
    feed: &mut F,
    program: &str,
    line: &str,
) -> Result<bool, OutOfMemory> {
    let Some(refusal) = run_refusal(alloc, feed, program.as_bytes())? else {
        return Ok(false);
    };
    let printed = refusal_line(alloc, &refusal)?;
    match text_of(printed.bytes()).split_once("\n") {
        Some((first, _)) => Ok(first == line),
        None => Ok(false),
    }
}

// A text fault of a file that was named by another path.
fn put_other_path<F: Feed>(
    alloc: Global,
    page: &mut Page,
    feed: &mut F,
    program: &str,
    said: Printed,
) -> Result<bool, OutOfMemory> {
    let Printed::Text { name, line, what } = said else {
        return Ok(false);
    };
    if last_name(program.as_bytes()) != last_name(name.as_bytes()) {
        return Ok(false);
    }
    let Some(bytes) = bytes_in(alloc, feed, program.as_bytes(), TEXT_LIMIT)? else {
        return Ok(false);
    };
    let fault = Fault { line, what };
    if first_fault(alloc, bytes.bytes())? != Some(fault) {
        return Ok(false);
    }
    let spot = spot_of(alloc, bytes.bytes(), fault)?;
    put_text_fault(alloc, page, program.as_bytes(), bytes.bytes(), what, &spot)?;
    Ok(true)
}

// A bad row of a source whose file is beside the program.
fn put_other_row<F: Feed>(
    alloc: Global,
    page: &mut Page,
    feed: &mut F,
    program: &str,
    said: Printed,
) -> Result<bool, OutOfMemory> {
    let Printed::Row {
        source,
        row,
        column,
        why,
    } = said
    else {
        return Ok(false);
    };
    let bad = BadPlace { row, column, why };
    put_row_case(alloc, page, feed, program.as_bytes(), source, bad)
}

// Whether the line was explained by this program.
fn explains_in<F: Feed>(
    alloc: Global,
    page: &mut Page,
    feed: &mut F,
    program: &str,
    line: &str,
    said: Printed,
) -> Result<bool, OutOfMemory> {
    if is_refused_so(alloc, feed, program, line)? {
        let mut whole = Page::new(alloc);
        whole.line(&[Say(line)])?;
        put_case(alloc, page, feed, program.as_bytes(), whole.bytes())?;
        return Ok(true);
    }
    Ok(
        put_other_path(alloc, page, feed, program, said)?
            || put_other_row(alloc, page, feed, program, said)?,
    )
}

// The sources of a program, for a name that no source has.
fn explains_unnamed<F: Feed>(
    alloc: Global,
    page: &mut Page,
    feed: &mut F,
    program: &str,
    said: Printed,
) -> Result<bool, OutOfMemory> {
    let Printed::Program { name, code: 11 } = said else {
        return Ok(false);
    };
    let Some(bytes) = bytes_in(alloc, feed, program.as_bytes(), TEXT_LIMIT)? else {
        return Ok(false);
    };
    crate::declarations::put_program_fault(
        alloc,
        page,
        program.as_bytes(),
        bytes.bytes(),
        name,
        11,
    )?;
    Ok(true)
}

/// Appends what a line that `pact` printed means, with its place if one of the programs has this fault. It appends
/// nothing if `pact` prints no such line. The lines that `pact` prints below it may follow it.
pub fn put_line<F: Feed>(
    alloc: Global,
    page: &mut Page,
    feed: &mut F,
    lines: &str,
    programs: &[&str],
) -> Result<(), OutOfMemory> {
    let (first, more) = match lines.split_once("\n") {
        Some(both) => both,
        None => (lines, ""),
    };
    let Some(said) = read_line(first) else {
        return Ok(());
    };
    if let Printed::Text { name, .. } = said {
        if explains_in(alloc, page, feed, name, first, said)? {
            return Ok(());
        }
    }
    let mut is_found = false;
    for program in programs {
        if is_of_program(said)
            && (explains_unnamed(alloc, page, feed, program, said)?
                || explains_in(alloc, page, feed, program, first, said)?)
        {
            is_found = true;
        }
    }
    if !is_found {
        put_general(alloc, page, feed, said, more)?;
    }
    if !is_found && is_of_program(said) && !programs.is_empty() {
        page.line(&[Say("none of these programs has this fault now:")])?;
        for program in programs {
            page.line(&[Say("  "), Quote(program.as_bytes())])?;
        }
    }
    Ok(())
}
