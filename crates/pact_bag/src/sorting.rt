//! Sorting by words beside the rows, so that few comparisons have to read the rows.

ghost use Rattle.std.specs.Prelude.{◌≡◌, map, true, IfOk};
ghost use Rattle.std.specs.List.{All};
ghost use Rattle.std.specs.List.Sorted.{IsPermutation, IsSorted};
ghost use Rattle.pact_record.specs.Record.{record_cmp};
ghost use Rattle.pact_bag.specs.Rows.{cut};
ghost use Rattle.pact_bag.specs.WordedRows.{IsWorded, row_of, worded_cmp};

use crate::orders::compare_fields;
use crate::prefixes::{Prefixes, prefixes_of, sample_step};
use crate::sort_words::row_words;
use pact_record::{OutOfMemory, Record};
use std::alloc::Global;
use std::cmp::Ordering;

// A row, the words of its listed fields, and its place in the list, so that rows with equal fields keep their order.
#[derive(Drop)]
struct WordedRow {
    first: u64,
    second: u64,
    place: usize,
    row: Record,
}

fn with_words(prefixes: &Prefixes, fields: &[u32], place: usize, row: Record) -> WordedRow
    ensures row { row_of result ≡ row }
    ensures words { IsWorded prefixes.now fields.now result }
{
    let (first, second) = row_words(prefixes, fields, &row);
    WordedRow {
        first,
        second,
        place,
        row,
    }
}

fn compare_worded(fields: &[u32], left: &WordedRow, right: &WordedRow) -> Ordering
    ensures { result ≡ worded_cmp fields.now left.now right.now }
{
    let found = left.first.cmp(&right.first);
    if found != Ordering::Equal {
        return found;
    }
    let found = left.second.cmp(&right.second);
    if found != Ordering::Equal {
        return found;
    }
    let found = compare_fields(fields, &left.row, &right.row);
    if found != Ordering::Equal {
        return found;
    }
    left.place.cmp(&right.place)
}

fn all_with_words(
    alloc: Global,
    prefixes: &Prefixes,
    fields: &[u32],
    rows: Vec<Record>,
) -> Result<Vec<WordedRow>, OutOfMemory>
    ensures rows { IfOk result (λ all. map row_of all.items ≡ rows.items) }
    ensures words { IfOk result (λ all. All (IsWorded prefixes.now fields.now) all.items) }
{
    let mut all = Vec::with_capacity(alloc, rows.len())?;
    for row in rows {
        let place = all.len();
        all.push_reserved(with_words(prefixes, fields, place, row));
    }
    Ok(all)
}

fn without_words(alloc: Global, all: Vec<WordedRow>) -> Result<Vec<Record>, OutOfMemory>
    ensures { IfOk result (λ rows. rows.items ≡ map row_of all.items) }
{
    let mut rows = Vec::with_capacity(alloc, all.len())?;
    for worded in all {
        rows.push_reserved(worded.row);
    }
    Ok(rows)
}

fn sort_by_words(
    alloc: Global,
    prefixes: &Prefixes,
    fields: &[u32],
    rows: Vec<Record>,
) -> Result<Vec<Record>, OutOfMemory>
    ensures permuted { IfOk result (λ sorted. IsPermutation rows.items sorted.items) }
    ensures sorted { IfOk result (λ sorted. IsSorted (λ a b. record_cmp (cut fields.now a) (cut fields.now b)) sorted.items) }
{
    let mut all = all_with_words(alloc, prefixes, fields, rows)?;
    all.sort_unstable_by(|a, b| compare_worded(fields, a, b));
    without_words(alloc, all)
}

fn are_sorted(fields: &[u32], rows: &[Record]) -> bool
    ensures { result ≡ true → IsSorted (λ a b. record_cmp (cut fields.now a) (cut fields.now b)) rows.now }
{
    rows.is_sorted_by(|a, b| compare_fields(fields, b, a) != Ordering::Less)
}

// Words that are all equal in a sample would hardly save a comparison.
fn words_differ(prefixes: &Prefixes, fields: &[u32], rows: &[Record]) -> bool {
    let Some(first) = rows.first() else {
        return false;
    };
    let words = row_words(prefixes, fields, first);
    for row in rows.iter().step_by(sample_step(rows.len())) {
        if row_words(prefixes, fields, row) != words {
            return true;
        }
    }
    false
}

/// The same records, sorted by the listed fields. Records that are equal in all of these keep their order; no clause says so.
pub(crate) fn sort_records(
    mut rows: Vec<Record>,
    fields: &[u32],
) -> Result<Vec<Record>, OutOfMemory>
    ensures permuted { IfOk result (λ sorted. IsPermutation rows.items sorted.items) }
    ensures sorted { IfOk result (λ sorted. IsSorted (λ a b. record_cmp (cut fields.now a) (cut fields.now b)) sorted.items) }
{
    if are_sorted(fields, &rows) {
        return Ok(rows);
    }
    let alloc = *rows.allocator();
    let prefixes = prefixes_of(alloc, &rows, fields)?;
    if words_differ(&prefixes, fields, &rows) {
        return sort_by_words(alloc, &prefixes, fields, rows);
    }
    rows.sort_by(|a, b| compare_fields(fields, a, b))?;
    Ok(rows)
}
