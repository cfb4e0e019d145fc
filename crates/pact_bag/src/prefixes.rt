//! The bytes that texts share at their start. The words of rows leave them out, and so begin where the texts differ.

ghost use Rattle.std.specs.Prelude.{◌<◌};

use crate::sort_words::TEXT_DIGITS;
use pact_record::{OutOfMemory, Record, Value};
use std::alloc::Global;

/// A prefix for each word. Any prefixes sort rows correctly; those that most texts share save the most comparisons.
#[derive(Drop)]
pub(crate) struct Prefixes {
    pub(crate) first: Vec<u8>,
    pub(crate) second: Vec<u8>,
}

/// The distance between rows of a sample. A sample has at most 16 rows, from all over the list.
pub(crate) fn sample_step(rows: usize) -> usize
    ensures { 0 < result }
{
    rows / 16 + 1
}

fn text_at(row: &Record, field: u32) -> &[u8] {
    if field < row.len() {
        if let Value::Text(text) = row.get(field) {
            return text.bytes();
        }
    }
    &[]
}

// What the first word is made from; or the second word, if the prefix of the first is known. Empty if it isn't a text.
fn text_of_word<'a>(known: Option<&[u8]>, fields: &[u32], row: &'a Record) -> &'a [u8] {
    let Some((field, rest)) = fields.split_first() else {
        return &[];
    };
    let text = text_at(row, *field);
    let Some(prefix) = known else {
        return text;
    };
    if TEXT_DIGITS < text.len().saturating_sub(prefix.len()) {
        return &text[prefix.len() + TEXT_DIGITS..];
    }
    match rest.first() {
        Some(field) => text_at(row, *field),
        None => &[],
    }
}

fn shared<'a>(left: &'a [u8], right: &[u8]) -> &'a [u8] {
    let end = left.len().min(right.len());
    for n in 0..end {
        if left[n] != right[n] {
            return &left[..n];
        }
    }
    &left[..end]
}

// The prefix that the texts of a word share in a sample.
fn shared_prefix<'a>(rows: &'a [Record], fields: &[u32], known: Option<&[u8]>) -> &'a [u8] {
    let Some(first) = rows.first() else {
        return &[];
    };
    let mut prefix = text_of_word(known, fields, first);
    for row in rows.iter().step_by(sample_step(rows.len())) {
        prefix = shared(prefix, text_of_word(known, fields, row));
    }
    prefix
}

pub(crate) fn prefixes_of(
    alloc: Global,
    rows: &[Record],
    fields: &[u32],
) -> Result<Prefixes, OutOfMemory> {
    let first = shared_prefix(rows, fields, None);
    let second = shared_prefix(rows, fields, Some(first));
    Ok(Prefixes {
        first: Vec::from_slice(alloc, first)?,
        second: Vec::from_slice(alloc, second)?,
    })
}
