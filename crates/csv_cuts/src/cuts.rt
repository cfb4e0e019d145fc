//! Cuts after a line feed that isn't quoted.

ghost use Rattle.std.specs.Prelude.{◌≡◌, ◌≤◌, ◌<◌, IfSome};
ghost use Rattle.csv.specs.Reading.{is_bom};
ghost use Rattle.csv_cuts.specs.Cuts.{IsCut, IsPlainCut, begins_with_mark};
ghost use Rattle.csv_cuts.specs.Places.{IsLineEnd, after_unquoted, is_quoted, next_place};

use memchr::memchr;

// Where the next byte of a text is: at the start of a field, where a quote opens a quoted field; further on in an
// unquoted field, where a quote is a byte like any other; between quotes; or after a quote that closes the field unless
// another quote follows. A line's end leads to the start of a field.
#[derive(Clone, Copy)]
enum Place {
    FieldStart,
    InField,
    InQuotes,
    AfterQuote,
}

// After a byte outside of quotes, other than a quote that opens or closes.
fn after_unquoted(byte: u8) -> Place
    ensures { result ≡ after_unquoted byte }
{
    if byte == b',' {
        Place::FieldStart
    } else if byte == b'\r' || byte == b'\n' {
        Place::FieldStart
    } else {
        Place::InField
    }
}

fn next_place(place: Place, byte: u8) -> Place
    ensures { result ≡ next_place place byte }
{
    match place {
        Place::FieldStart => if byte == b'"' {
            Place::InQuotes
        } else {
            after_unquoted(byte)
        },
        Place::InField => after_unquoted(byte),
        Place::InQuotes => if byte == b'"' {
            Place::AfterQuote
        } else {
            Place::InQuotes
        },
        Place::AfterQuote => if byte == b'"' {
            Place::InQuotes
        } else {
            after_unquoted(byte)
        },
    }
}

fn is_quoted(place: Place) -> bool
    ensures { result ≡ is_quoted place }
{
    matches!(place, Place::InQuotes)
}

// The first unquoted line feed at `near` or later, found by a pass over all bytes before it.
fn scan_line_end(text: &[u8], near: usize) -> Option<usize>
    ensures end { IfSome result (IsLineEnd text.now) }
    ensures from { IfSome result (λ at. near ≤ at) }
{
    let mut place = Place::FieldStart;
    for at in 0..text.len() {
        let byte = text[at];
        if byte == b'\n' && near <= at && !is_quoted(place) {
            return Some(at);
        }
        place = next_place(place, byte);
    }
    None
}

// The first unquoted line feed at `near` or later. Most texts have no quote before it, and two fast searches show that.
fn find_line_end(text: &[u8], near: usize) -> Option<usize>
    ensures end { IfSome result (IsLineEnd text.now) }
    ensures from { IfSome result (λ at. near ≤ at) }
{
    if text.len() <= near {
        return None;
    }
    let (_, from_near) = text.split_at(near);
    let line_feed = memchr(b'\n', from_near)?;
    let at = near + line_feed;
    let (before, _) = text.split_at(at);
    if memchr(b'"', before).is_some() {
        return scan_line_end(text, near);
    }
    Some(at)
}

fn is_mark(a: u8, b: u8, c: u8) -> bool
    ensures { result ≡ is_bom a b c }
{
    a == 0xEF && b == 0xBB && c == 0xBF
}

// Whether a text begins with a byte order mark, which a reader removes.
fn begins_with_mark(text: &[u8]) -> bool
    ensures { result ≡ begins_with_mark text.now }
{
    if text.len() < 3 {
        return false;
    }
    is_mark(text[0], text[1], text[2])
}

// `cut_near` of a text of which no mark is removed.
fn plain_cut(text: &[u8], near: usize) -> Option<usize>
    ensures cut { IfSome result (IsPlainCut text.now) }
    ensures after { IfSome result (λ at. near < at) }
{
    let line_feed = find_line_end(text, near)?;
    let at = line_feed + 1;
    let (_, rest) = text.split_at(at);
    if begins_with_mark(rest) {
        return None;
    }
    Some(at)
}

/// The place after the first line feed at `near` or later that isn't quoted. `None` if there is no such line feed, or if a
/// byte order mark follows it: the reader of the rest would remove that mark.
///
/// It takes a pass over all bytes up to the place if a quote is before it, and two searches for a byte otherwise.
pub fn cut_near(text: &[u8], near: usize) -> Option<usize>
    ensures cut { IfSome result (IsCut text.now) }
    ensures after { IfSome result (λ at. near < at) }
{
    if !begins_with_mark(text) {
        return plain_cut(text, near);
    }
    let (_, unmarked) = text.split_at(3);
    let at = plain_cut(unmarked, near.saturating_sub(3))?;
    Some(at + 3)
}
