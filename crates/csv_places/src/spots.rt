//! The fields of a file, one after the other.

ghost use Rattle.std.specs.Prelude.{◌≤◌, ◌<◌, length, IfSome};

use crate::places::plain_value;
use crate::scanning::{field_end, line_at, line_ends, next_row, text_start};

/// A field of a file: its row and column, the line on which it begins, and its bytes. All numbers count from 1.
#[derive(Clone, Copy)]
pub(crate) struct Spot {
    pub row: u64,
    pub column: u32,
    pub line: u64,
    pub from: usize,
    pub to: usize,
}

/// The first field of a file.
pub(crate) fn first_spot(text: &[u8]) -> Option<Spot>
    ensures order { IfSome result (λ spot. spot.from ≤ spot.to) }
    ensures inside { IfSome result (λ spot. spot.to ≤ length text.now) }
{
    let from = next_row(text, text_start(text));
    if from >= text.len() {
        return None;
    }
    Some(Spot {
        row: 1,
        column: 1,
        line: line_at(text, from),
        from,
        to: field_end(text, from),
    })
}

/// The field after another one.
pub(crate) fn next_spot(text: &[u8], spot: &Spot) -> Option<Spot>
    requires order { spot.now.from ≤ spot.now.to }
    requires inside { spot.now.to ≤ length text.now }
    ensures order { IfSome result (λ next. next.from ≤ next.to) }
    ensures inside { IfSome result (λ next. next.to ≤ length text.now) }
{
    if text.get(spot.to) == Some(&b',') {
        let from = spot.to + 1;
        return Some(spot_from(text, spot, from, spot.row, spot.column.saturating_add(1)));
    }
    let from = next_row(text, spot.to);
    if from >= text.len() {
        return None;
    }
    Some(spot_from(text, spot, from, spot.row.saturating_add(1), 1))
}

fn spot_from(text: &[u8], before: &Spot, from: usize, row: u64, column: u32) -> Spot
    requires order { before.now.from ≤ from }
    requires inside { from ≤ length text.now }
    ensures order { result.from ≤ result.to }
    ensures inside { result.to ≤ length text.now }
{
    let ended = line_ends(text, before.from, from);
    Spot {
        row,
        column,
        line: before.line.saturating_add(ended),
        from,
        to: field_end(text, from),
    }
}

/// The field's value as csv reads it, if that can be told without making it.
pub(crate) fn value_at<'a>(text: &'a [u8], spot: &Spot) -> Option<&'a [u8]>
    requires order { spot.now.from ≤ spot.now.to }
    requires inside { spot.now.to ≤ length text.now }
{
    plain_value(&text[spot.from..spot.to])
}
