//! First rows that look like the names of the columns.

ghost use Rattle.std.specs.Prelude.{◌≤◌, length};

use crate::numbers::is_number;
use crate::shapes::{
    has_thousands, is_column_name, is_date, is_decimal, is_scientific, is_truth_word,
    is_unknown_word, without_sign,
};
use crate::spots::{Spot, first_spot, next_spot, value_at};
use pact_record::{Column, Fields, MAX_FIELDS};

/// The line of the first row, if it looks like the names of the columns: each of its fields is a name that isn't a value
/// such as `NULL`, and some column is of numbers, or holds nothing but numbers and dates below. A column with empty cells
/// needs two numbers or dates, any other one.
pub(crate) fn header_line(text: &[u8], columns: &[Column]) -> Option<u64> {
    let first = first_spot(text)?;
    let looks = is_row_of_names(text) && (has_number_column(columns) || has_numbers_below(text));
    looks.then_some(first.line)
}

fn has_number_column(columns: &[Column]) -> bool {
    for column in columns {
        if !column.text {
            return true;
        }
    }
    false
}

fn is_name_at(text: &[u8], spot: &Spot) -> bool
    requires order { spot.now.from ≤ spot.now.to }
    requires inside { spot.now.to ≤ length text.now }
{
    match value_at(text, spot) {
        Some(value) => is_name(value.trim_ascii()),
        None => false,
    }
}

/// Whether the value may be the name of a column.
pub fn is_name(value: &[u8]) -> bool {
    is_column_name(value) && !is_unknown_word(value) && !is_truth_word(value)
}

fn is_row_of_names(text: &[u8]) -> bool {
    let mut next = first_spot(text);
    for _ in 0..text.len() {
        let Some(spot) = next else {
            return true;
        };
        if spot.row > 1 {
            return true;
        }
        if !is_name_at(text, &spot) {
            return false;
        }
        next = next_spot(text, &spot);
    }
    true
}

// Whether some column has nothing but numbers and dates below the first row: at least one, or two beside empty cells.
fn has_numbers_below(text: &[u8]) -> bool {
    let mut next = first_spot(text);
    let mut once = Fields::empty();
    let mut twice = Fields::empty();
    let mut empties = Fields::empty();
    let mut others = Fields::empty();
    for _ in 0..text.len() {
        let Some(spot) = next else {
            break;
        };
        if spot.row > 1 && spot.column <= MAX_FIELDS {
            let column = spot.column.saturating_sub(1);
            match holds_number(text, &spot) {
                Some(true) if once.has(column) => twice = twice.with(column),
                Some(true) => once = once.with(column),
                Some(false) => others = others.with(column),
                None => empties = empties.with(column),
            }
        }
        next = next_spot(text, &spot);
    }
    once.minus(empties)
        .union(twice)
        .minus(others)
        .least()
        .is_some()
}

// Whether the field is a number or a date, if it isn't empty.
fn holds_number(text: &[u8], spot: &Spot) -> Option<bool>
    requires order { spot.now.from ≤ spot.now.to }
    requires inside { spot.now.to ≤ length text.now }
{
    match value_at(text, spot) {
        Some(value) => value_holds_number(value.trim_ascii()),
        None => Some(false),
    }
}

fn value_holds_number(value: &[u8]) -> Option<bool> {
    if value.is_empty() {
        return None;
    }
    let digits = without_sign(value);
    Some(
        is_number(value)
            || is_decimal(digits)
            || has_thousands(digits)
            || is_scientific(digits)
            || is_date(value),
    )
}
