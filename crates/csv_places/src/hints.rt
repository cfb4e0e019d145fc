//! What in a file is legal but seldom meant.

ghost use Rattle.std.specs.Prelude.{◌≤◌, length};

use crate::headers::header_line;
use crate::lists::{FileHint, FileHintList};
use crate::numbers::{NumberFault, number_fault};
use crate::scanning::{is_open, line_ends};
use crate::spots::{Spot, first_spot, next_spot, value_at};
use pact_record::{Column, Columns, OutOfMemory};
use std::alloc::Global;

/// What in a file is legal but seldom meant, or isn't a number in a column of numbers. Each kind of hint comes once,
/// with the number of its places; that of numbers once for each column and fault.
pub fn file_hints(
    alloc: Global,
    text: &[u8],
    columns: &Columns,
) -> Result<FileHintList, OutOfMemory> {
    let mut list = FileHintList::new(alloc);
    if let Some(line) = header_line(text, columns.columns()) {
        list.push(FileHint::HeaderLike { line })?;
    }
    let mut next = first_spot(text);
    for _ in 0..text.len() {
        let Some(spot) = next else {
            return Ok(list);
        };
        note_lines(&mut list, text, &spot)?;
        note_number(&mut list, text, columns.columns(), &spot)?;
        next = next_spot(text, &spot);
    }
    Ok(list)
}

// A field over more than one line, or with a quote that isn't closed.
fn note_lines(list: &mut FileHintList, text: &[u8], spot: &Spot) -> Result<(), OutOfMemory>
    requires order { spot.now.from ≤ spot.now.to }
    requires inside { spot.now.to ≤ length text.now }
{
    let (row, column, line) = (spot.row, spot.column, spot.line);
    if spot.to == text.len() && is_open(text, spot.from) {
        return list.note(FileHint::NeverClosed { row, column, line });
    }
    let ends = line_ends(text, spot.from, spot.to);
    if ends == 0 {
        return Ok(());
    }
    list.note(FileHint::LongField {
        row,
        column,
        line,
        lines: ends.saturating_add(1),
        count: 1,
    })
}

fn note_number(
    list: &mut FileHintList,
    text: &[u8],
    columns: &[Column],
    spot: &Spot,
) -> Result<(), OutOfMemory>
    requires order { spot.now.from ≤ spot.now.to }
    requires inside { spot.now.to ≤ length text.now }
{
    match number_fault_at(text, columns, spot) {
        Some(fault) => list.note(FileHint::NotNumbers {
            column: spot.column,
            fault,
            row: spot.row,
            line: spot.line,
            count: 1,
        }),
        None => Ok(()),
    }
}

// Why the field isn't a number, if its column is one of numbers.
fn number_fault_at(text: &[u8], columns: &[Column], spot: &Spot) -> Option<NumberFault>
    requires order { spot.now.from ≤ spot.now.to }
    requires inside { spot.now.to ≤ length text.now }
{
    let column = columns.get(spot.column.saturating_sub(1) as usize)?;
    if column.text {
        return None;
    }
    number_fault(value_at(text, spot)?)
}
