//! Rows and columns by their numbers.

ghost use Rattle.std.specs.Prelude.{◌≡◌, ◌≤◌, ◌<◌, ◌-◌, length, IfSome};
ghost use Rattle.csv_source.specs.CsvRows.{column_number};
ghost use Rattle.csv_places.specs.Scanning.{BeginsRow, HasFields};

use crate::scanning::{field_end, line_at, next_row, row_behind, row_end, text_start};

/// A row of a CSV file, or a field of it, as it is in the file, with its quotes.
#[derive(Clone, Copy, Debug, PartialEq, Eq)]
pub struct Place {
    /// The line of the file on which it begins, from 1.
    pub line: u64,
    /// The line on which its row begins.
    pub row_line: u64,
    /// Its first byte.
    pub from: usize,
    /// The byte after its last one.
    pub to: usize,
    /// How many fields its row has.
    pub fields: u32,
}

/// The place of a row and a column, both numbered from 1. Column 0 is the whole row. Empty lines don't count as rows.
pub fn place_of(text: &[u8], row: u64, column: u32) -> Option<Place>
    ensures order { IfSome result (λ place. place.from ≤ place.to) }
    ensures inside { IfSome result (λ place. place.to ≤ length text.now) }
    ensures row { IfSome result (λ place. HasFields text.now row place.fields) }
{
    let start = row_start(text, row)?;
    let end = row_end(text, start);
    let (from, to) = part_of(text, start, end.at, column)?;
    Some(Place {
        line: line_at(text, from),
        row_line: line_at(text, start),
        from,
        to,
        fields: number_of(end.fields),
    })
}

/// A field's value as csv reads it, if that can be told without making it: a field without quotes, or with quotes only
/// around it.
pub fn plain_value(field: &[u8]) -> Option<&[u8]> {
    match field {
        [b'"', value @ .., b'"'] => (!value.contains(&b'"')).then_some(value),
        [b'"', ..] => None,
        _ => Some(field),
    }
}

// A number of 32 bits; a greater one counts as the greatest of them.
fn number_of(count: usize) -> u32
    ensures { result ≡ column_number count }
{
    u32::try_from(count).unwrap_or(u32::MAX)
}

// Where the row of that number begins.
fn row_start(text: &[u8], row: u64) -> Option<usize>
    ensures inside { IfSome result (λ at. at < length text.now) }
    ensures row { IfSome result (λ at. BeginsRow text.now at (row - 1)) }
{
    let mut at = next_row(text, text_start(text));
    for n in 1..row {
        if at >= text.len() {
            return None;
        }
        at = next_row(text, row_behind(text, at));
    }
    if row == 0 || at >= text.len() {
        return None;
    }
    Some(at)
}

// Where a column of a row begins and ends, or the row.
fn part_of(text: &[u8], start: usize, end: usize, column: u32) -> Option<(usize, usize)>
    requires order { start ≤ end }
    requires inside { end ≤ length text.now }
    ensures order { IfSome result (λ part. part.0 ≤ part.1) }
    ensures inside { IfSome result (λ part. part.1 ≤ length text.now) }
{
    if column == 0 {
        return Some((start, end));
    }
    let from = column_start(text, start, end, column)?;
    Some((from, field_end(text, from)))
}

// Where the column of that number begins, in a row from `start` to `end`.
fn column_start(text: &[u8], start: usize, end: usize, column: u32) -> Option<usize>
    requires order { start ≤ end }
    requires inside { end ≤ length text.now }
    ensures { IfSome result (λ at. at ≤ length text.now) }
{
    let mut from = start;
    for _ in 1..column {
        let to = field_end(text, from);
        if to >= end {
            return None;
        }
        from = to + 1;
    }
    Some(from)
}
