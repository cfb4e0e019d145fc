//! Bad rows of sources.

use csv_places::{
    FileHint, FileHintList, NumberFault, Place, file_hints, is_name, number_fault, place_of,
    plain_value,
};
use explain_words::faults::row_fault;
use explain_words::pages::Piece::{Number, Quote, Say};
use explain_words::pages::{character_at, part};
use explain_words::places::put_place;
use explain_words::{Page, Part, TextLine};
use pact_record::{Column, Columns, OutOfMemory};
use std::alloc::Global;

/// A bad row, as `pact` reports it.
#[derive(Clone, Copy)]
pub struct BadPlace {
    pub row: u64,
    pub column: u32,
    pub why: u32,
}

/// Why a value isn't a number, in words, and what to do.
pub fn number_words(fault: NumberFault) -> &'static str {
    match fault {
        NumberFault::Blank => "it has only blanks; leave it empty if there is no value",
        NumberFault::BlankAround => "it has a blank before or after it; delete the blank",
        NumberFault::TooLarge => { "it is outside -9223372036854775808 to 9223372036854775807" }
        NumberFault::Decimals => {
            "it has a decimal point; write it in cents, such as 1999 for 19.99"
        }
        NumberFault::Thousands => "write its digits without separators",
        NumberFault::Exponent => "write it without an exponent",
        NumberFault::Hexadecimal => "write it in decimal digits",
        NumberFault::Date => {
            "it looks like a date; read the column as text:N, or write the date as one number, such as 20240105"
        }
        NumberFault::Unknown => "leave it empty if the value isn't known",
        NumberFault::Truth => "write 1 or 0",
        NumberFault::ByteOrderMark => {
            "it begins with a second byte-order mark; a file may have one only, at its start"
        }
        NumberFault::Unit =>
            "it has a unit or other characters beside the number; write only the number",
        NumberFault::Word => "it is a word; read the column as text:N if it holds words",
        NumberFault::Other => "it has characters other than digits",
    }
}

fn part_of(place: &Place) -> Part {
    Part {
        line: place.line,
        from: place.from,
        to: place.to,
    }
}

// The value without its quotes, or the whole field if its quotes are faulty.
fn value_of<'a>(field: &'a [u8]) -> &'a [u8] {
    match plain_value(field) {
        Some(value) => value,
        None => field,
    }
}

// ---- rows of another width

fn put_count(page: &mut Page, count: u64, what: &'static str) -> Result<(), OutOfMemory> {
    page.add(&[
        Number(count),
        Say(" "),
        Say(what),
        Say(if count == 1 { "" } else { "s" }),
    ])
}

// Whether the next row has the same number of fields, and more than one.
fn is_as_next(text: &[u8], bad: BadPlace, fields: u32) -> bool {
    match place_of(text, bad.row.saturating_add(1), 0) {
        Some(next) => next.fields == fields,
        None => false,
    }
}

// Whether the row is one field with other separators.
fn is_separated(row: &[u8], fields: u32) -> bool {
    fields == 1 && (row.contains(&b';') || row.contains(&b'\t'))
}

fn width_hint(row: &[u8], fields: u32, columns: u64) -> Option<&'static str> {
    if fields == 1 && row.contains(&b';') {
        Some("fields are separated by commas only, not by semicolons")
    } else if fields == 1 && row.contains(&b'\t') {
        Some("fields are separated by commas only, not by tabs")
    } else if row.contains(&b'\n') {
        Some("the row spans several lines: one of its quotes is closed too late or never")
    } else if columns < u64::from(fields) && row.last() == Some(&b',') {
        Some("the comma at the row's end begins one more field; delete it")
    } else if columns < u64::from(fields) {
        Some("a comma inside a field needs double quotes around the field")
    } else {
        None
    }
}

fn put_width(
    page: &mut Page,
    text: &[u8],
    bad: BadPlace,
    place: &Place,
    columns: u64,
) -> Result<(), OutOfMemory> {
    page.put(b"it has ")?;
    put_count(page, u64::from(place.fields), "field")?;
    page.put(b", and the source has ")?;
    put_count(page, columns, "column")?;
    page.put(b"\n")?;
    if let Some(hint) = width_hint(part(text, place.from, place.to), place.fields, columns) {
        page.line(&[Say(hint)])?;
    }
    if !is_separated(part(text, place.from, place.to), place.fields)
        && is_as_next(text, bad, place.fields)
    {
        page.put(b"cure: give the source ")?;
        put_count(page, u64::from(place.fields), "column")?;
        page.line(&[
            Say(" (int:N or text:N), since row "),
            Number(bad.row.saturating_add(1)),
            Say(" has that many fields too"),
        ])?;
    }
    Ok(())
}

// ---- values

fn put_column(page: &mut Page, bad: BadPlace, column: &[u8]) -> Result<(), OutOfMemory> {
    page.add(&[
        Say("column "),
        Number(u64::from(bad.column)),
        Say(" is "),
        Quote(column),
        Say(", and this value "),
    ])
}

fn put_not_number(
    page: &mut Page,
    bad: BadPlace,
    column: &[u8],
    value: &[u8],
) -> Result<(), OutOfMemory> {
    put_column(page, bad, column)?;
    page.add(&[Say("isn't a number: ")])?;
    match number_fault(value) {
        Some(fault) => page.line(&[Say(number_words(fault))])?,
        None => page.line(&[Say("it isn't written as one")])?,
    }
    page.line(&[Say(
        "expected: digits with at most one sign, from -9223372036854775808 to 9223372036854775807, or nothing at all",
    )])
}

// The first byte that isn't a character's, counted from 1, or 0.
fn first_other_byte(value: &[u8]) -> usize {
    let mut next = 0usize;
    for at in 0..value.len() {
        if at == next {
            let size = character_at(value, at);
            if size == 0 {
                return at.saturating_add(1);
            }
            next = at.saturating_add(size);
        }
    }
    0
}

fn put_not_text(page: &mut Page, value: &[u8]) -> Result<(), OutOfMemory> {
    let at = first_other_byte(value);
    page.line(&[
        Say("byte "),
        Number(at as u64),
        Say(" of the field, "),
        Quote(part(value, at.saturating_sub(1), at)),
        Say(", isn't valid UTF-8: save the file as UTF-8"),
    ])
}

fn put_value(
    page: &mut Page,
    bad: BadPlace,
    column: &[u8],
    value: &[u8],
) -> Result<(), OutOfMemory> {
    match bad.why {
        2 => put_not_number(page, bad, column, value),
        3 => put_not_text(page, value),
        _ => page.line(&[
            Say("it has "),
            Number(value.len() as u64),
            Say(
                " bytes, and at most 4096 are allowed; a quote that is never closed also makes such a text",
            ),
        ]),
    }
}

// Whether the row is the first one, and each of its fields may be the name of a column.
fn is_header(text: &[u8], bad: BadPlace, fields: u32) -> bool {
    for column in 1..fields.saturating_add(1).min(200) {
        match place_of(text, bad.row, column) {
            Some(place) => {
                let value = value_of(part(text, place.from, place.to));
                if !is_name(value.trim_ascii()) {
                    return false;
                }
            }
            None => return false,
        }
    }
    bad.row == 1
}

// The columns of a source, of which only the kinds count here.
fn columns_of(
    alloc: Global,
    program_text: &[u8],
    source: &TextLine,
) -> Result<Columns, OutOfMemory> {
    let mut columns = Columns::new(alloc);
    for n in 3..source.words.len() {
        columns.push(Column {
            field: 0,
            text: source.word(program_text, n).starts_with(b"text"),
        })?;
    }
    Ok(columns)
}

/// Appends how many values of a column aren't numbers, and why.
pub fn put_number_count(
    page: &mut Page,
    column: u32,
    fault: NumberFault,
    line: u64,
    count: u64,
) -> Result<(), OutOfMemory> {
    page.line(&[
        Say("in column "),
        Number(u64::from(column)),
        Say(", "),
        Number(count),
        Say(if count == 1 {
            " value isn't a number"
        } else {
            " values aren't numbers"
        }),
        Say(if count == 1 {
            " (line "
        } else {
            " (first on line "
        }),
        Number(line),
        Say("): "),
        Say(number_words(fault)),
    ])
}

fn non_numbers(hint: &FileHint) -> u64 {
    match hint {
        FileHint::NotNumbers { count, .. } => *count,
        _ => 0,
    }
}

// Appends how many values of all columns aren't numbers, if there are more than one.
fn put_number_counts(page: &mut Page, hints: &FileHintList) -> Result<(), OutOfMemory> {
    let mut total = 0u64;
    for hint in hints.items() {
        total = total.saturating_add(non_numbers(hint));
    }
    if total < 2 {
        return Ok(());
    }
    for hint in hints.items() {
        if let FileHint::NotNumbers {
            column,
            fault,
            line,
            count,
            ..
        } = hint
        {
            put_number_count(page, *column, *fault, *line, *count)?;
        }
    }
    Ok(())
}

// Appends that a quote of the bad row is never closed, if there is one.
fn put_open_quote(page: &mut Page, hints: &FileHintList, bad: BadPlace) -> Result<(), OutOfMemory> {
    for hint in hints.items() {
        match hint {
            FileHint::NeverClosed { row, line, .. } if *row == bad.row => {
                page.line(&[
                    Say("the quote on line "),
                    Number(*line),
                    Say(" is never closed"),
                ])?;
            }
            _ => {}
        }
    }
    Ok(())
}

// ---- all of it

fn put_row(
    alloc: Global,
    page: &mut Page,
    program_text: &[u8],
    source: &TextLine,
    file: &[u8],
    text: &[u8],
    bad: BadPlace,
) -> Result<(), OutOfMemory> {
    let Some(place) = place_of(text, bad.row, bad.column) else {
        return page.line(&[
            Quote(file),
            Say(" has no row "),
            Number(bad.row),
            Say(": the file has changed, or it is another one"),
        ]);
    };
    put_place(page, file, text, &part_of(&place))?;
    page.line(&[
        Say("row "),
        Number(bad.row),
        Say(" begins on line "),
        Number(place.row_line),
    ])?;
    page.line(&[Say(row_fault(bad.why))])?;
    let columns = source.words.len().saturating_sub(3) as u64;
    let hints = file_hints(alloc, text, &columns_of(alloc, program_text, source)?)?;
    put_open_quote(page, &hints, bad)?;
    if bad.column == 0 {
        put_width(page, text, bad, &place, columns)?;
    } else {
        let column = source.word(program_text, (bad.column as usize).saturating_add(2));
        put_value(
            page,
            bad,
            column,
            value_of(part(text, place.from, place.to)),
        )?;
    }
    if bad.why == 2 && is_header(text, bad, place.fields) {
        page.line(&[Say(
            "this looks like a header row: a source's file has none, so delete the line",
        )])?;
    }
    if bad.why == 2 {
        put_number_counts(page, &hints)?;
    }
    Ok(())
}

/// Appends which part of a source's file is bad, and what was expected. `bytes` are the file's, if it can be read.
pub fn put_bad_row(
    alloc: Global,
    page: &mut Page,
    program: &[u8],
    program_text: &[u8],
    source: &TextLine,
    bytes: Option<&[u8]>,
    bad: BadPlace,
) -> Result<(), OutOfMemory> {
    let file = source.word(program_text, 2);
    match bytes {
        Some(text) => put_row(alloc, page, program_text, source, file, text, bad)?,
        None => page.line(&[Quote(file), Say(" can't be read now")])?,
    }
    page.line(&[Say("the source that reads it:")])?;
    put_place(page, program, program_text, &source.part(2))?;
    page.line(&[
        Say("docs/faults.md, \"Row fault "),
        Number(u64::from(bad.why)),
        Say("\""),
    ])
}
