//! Two 64-bit words for the listed fields of a row. They order rows as the fields do, as far as the words differ.

ghost use Rattle.std.specs.Prelude.{◌≡◌, ◌≤◌, ◌+◌, ◌∷◌, [], drop};
ghost use Rattle.pact_record.specs.Record.{at_field};
ghost use Rattle.pact_bag.specs.Rows.{cut};
ghost use Rattle.pact_bag.specs.SortWords as specs;
ghost use Rattle.pact_bag.specs.SortWords.{AreWords, BeginsWithBytes, FirstIsOfBytes, IsOfBytesAt, packed, place, word_at, word_of};

use crate::prefixes::Prefixes;
use pact_record::{Record, Value};
use std::cmp::Ordering;

/// The bytes of a text that one word can hold.
pub(crate) const TEXT_DIGITS: usize = 7;

// The greatest word of a number. The words of texts are greater, and that of Null is 0.
const LAST_NUMBER: u64 = 18_158_513_697_557_839_871;

// A digit in base 257: 0 at the end of the text, so that a text comes before its continuations.
fn digit(bytes: &[u8], at: usize) -> u64
    ensures digit { result ≡ specs.digit (drop at bytes.now) }
    ensures small { result ≤ 256 }
{
    if at < bytes.len() {
        u64::from(bytes[at]) + 1
    } else {
        0
    }
}

// Seven digits, and whether there are more bytes.
fn digits_word(bytes: &[u8]) -> u64
    ensures word { result ≡ specs.last_number + 1 + packed 7 0 bytes.now }
    ensures bytes { BeginsWithBytes 7 bytes.now }
{
    let a = digit(bytes, 0);
    let b = a * 257 + digit(bytes, 1);
    let c = b * 257 + digit(bytes, 2);
    let d = c * 257 + digit(bytes, 3);
    let e = d * 257 + digit(bytes, 4);
    let f = e * 257 + digit(bytes, 5);
    let g = f * 257 + digit(bytes, 6);
    let more = u64::from(bytes.len() > TEXT_DIGITS);
    LAST_NUMBER + 1 + (g * 2 + more)
}

// The rank of a number among all of 64 bits, from 0 on.
fn rank(number: i64) -> u64
    ensures { result ≡ specs.rank number }
{
    let size = number.unsigned_abs();
    if number < 0 {
        9_223_372_036_854_775_808 - size
    } else {
        9_223_372_036_854_775_808 + size
    }
}

fn is_exact(rank: u64) -> bool
    ensures { result ≡ specs.is_exact rank }
{
    1 < rank && rank < LAST_NUMBER
}

fn number_word(rank: u64) -> u64
    ensures { result ≡ specs.number_word rank }
{
    if 1 < rank {
        if rank < LAST_NUMBER {
            rank
        } else {
            LAST_NUMBER
        }
    } else {
        1
    }
}

fn text_word(prefix: &[u8], text: &[u8]) -> u64
    ensures word { result ≡ word_at (place prefix.now text.now) }
    ensures bytes { IsOfBytesAt (place prefix.now text.now) }
{
    let end = prefix.len().min(text.len());
    match text[..end].cmp(prefix) {
        Ordering::Less => LAST_NUMBER + 1,
        Ordering::Equal => digits_word(&text[end..]),
        Ordering::Greater => u64::MAX,
    }
}

fn value_word(prefix: &[u8], value: &Value) -> u64
    ensures word { result ≡ word_of prefix.now (value.now ∷ []) }
    ensures bytes { FirstIsOfBytes prefix.now (value.now ∷ []) }
{
    match value {
        Value::Null => 0,
        Value::Int(number) => number_word(rank(*number)),
        Value::Text(text) => text_word(prefix, text.bytes()),
    }
}

// Null if the record doesn't have the field.
fn value_at<'a>(row: &'a Record, field: u32, null: &'a Value) -> &'a Value
    requires { null.now ≡ Value.Null }
    ensures { result.now ≡ at_field row.now field }
{
    if field < row.len() {
        row.get(field)
    } else {
        null
    }
}

fn first_word(prefix: &[u8], fields: &[u32], row: &Record) -> u64
    ensures word { result ≡ word_of prefix.now (cut fields.now row.now) }
    ensures bytes { FirstIsOfBytes prefix.now (cut fields.now row.now) }
{
    let Some((field, _)) = fields.split_first() else {
        return 0;
    };
    let null = Value::Null;
    value_word(prefix, value_at(row, *field, &null))
}

// The words of what follows the prefix of a text, and of the listed fields after it.
fn rest_words(next_prefix: &[u8], rest: &[u8], fields: &[u32], row: &Record) -> (u64, u64)
    ensures { AreWords [] next_prefix.now (Value.Text rest.now ∷ cut fields.now row.now) result.0 result.1 }
{
    if TEXT_DIGITS < rest.len() {
        return (
            digits_word(rest),
            text_word(next_prefix, &rest[TEXT_DIGITS..]),
        );
    }
    (digits_word(rest), first_word(next_prefix, fields, row))
}

fn text_words(prefixes: &Prefixes, text: &[u8], fields: &[u32], row: &Record) -> (u64, u64)
    ensures { AreWords prefixes.now.first.items prefixes.now.second.items (Value.Text text.now ∷ cut fields.now row.now) result.0 result.1 }
{
    let prefix = prefixes.first.as_slice();
    let end = prefix.len().min(text.len());
    match text[..end].cmp(prefix) {
        Ordering::Less => (LAST_NUMBER + 1, 0),
        Ordering::Equal => rest_words(&prefixes.second, &text[end..], fields, row),
        Ordering::Greater => (u64::MAX, 0),
    }
}

// The words of a value followed by the listed fields.
fn words_from(prefixes: &Prefixes, value: &Value, fields: &[u32], row: &Record) -> (u64, u64)
    ensures { AreWords prefixes.now.first.items prefixes.now.second.items (value.now ∷ cut fields.now row.now) result.0 result.1 }
{
    match value {
        Value::Null => (0, first_word(&prefixes.second, fields, row)),
        Value::Int(number) => {
            let rank = rank(*number);
            if is_exact(rank) {
                return (number_word(rank), first_word(&prefixes.second, fields, row));
            }
            (number_word(rank), 0)
        }
        Value::Text(text) => text_words(prefixes, text.bytes(), fields, row),
    }
}

/// The words of a row's listed fields. They order rows whose words have the same prefixes.
pub(crate) fn row_words(prefixes: &Prefixes, fields: &[u32], row: &Record) -> (u64, u64)
    ensures { AreWords prefixes.now.first.items prefixes.now.second.items (cut fields.now row.now) result.0 result.1 }
{
    let Some((field, rest)) = fields.split_first() else {
        return (0, 0);
    };
    let null = Value::Null;
    words_from(prefixes, value_at(row, *field, &null), rest, row)
}
