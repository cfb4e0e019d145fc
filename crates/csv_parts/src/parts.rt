//! A text in parts, each read on a thread of its own.

ghost use Rattle.std.specs.Prelude.{◌≡◌, ◌≤◌, ◌<◌, ◌++◌, ◌*◌, ◌/◌, ℕ, List, length, max, min, IfErr, IfOk};
ghost use Rattle.std.specs.List.{AllByRecursion};
ghost use Rattle.std.specs.Thread.{IsSync};
ghost use Rattle.pact_bag.specs.Rows.{HaveOneWidth};
ghost use Rattle.pact_bag.specs.SourceRows.{AreSourceRows};
ghost use Rattle.pact_record.specs.declared.values.Value.{Value as FieldsValue};
ghost use Rattle.csv_source.specs.CsvRows.{CsvRows, HasBadRow};
ghost use Rattle.csv_source.specs.Refused.{IsMemory, SourceRefused};
ghost use Rattle.csv_parts.specs.Joined.{IsJoined, IsRenumbered};
ghost use Rattle.csv_parts.specs.declared.parts.TheConstants.{PART_BYTES};

use csv_cuts::cut_near;
use csv_source::{BadRow, read_source};
use pact_bag::Rows;
use pact_record::{Columns, MAX_FIELDS};
use std::alloc::Global;
use std::thread::{Threads, join};

// The bad row of the rest of a text, numbered in the whole text, whose prefix has `rows` rows.
fn renumbered(bad: BadRow, rows: usize) -> BadRow
    ensures { IsRenumbered rows bad result }
{
    match bad {
        BadRow::At { row, column, why } => match row.checked_add(rows as u64) {
            Some(row) => BadRow::At { row, column, why },
            // no text in memory has that many rows
            None => BadRow::Memory,
        },
        BadRow::Memory => BadRow::Memory,
    }
}

fn joined(mut prefix: Rows, rest: Result<Rows, BadRow>) -> Result<Rows, BadRow>
    requires { IfOk rest (λ rows. HaveOneWidth (prefix ++ rows)) }
    ensures { IsJoined prefix rest result }
{
    match rest {
        Ok(mut more) => match prefix.append(&mut more) {
            Ok(()) => Ok(prefix),
            Err(_) => Err(BadRow::Memory),
        },
        Err(bad) => Err(renumbered(bad, prefix.len())),
    }
}

// Where the first `count` of a text's parts end, if all `parts` have the same length.
fn end_of_parts(len: usize, count: u32, parts: u32) -> usize
    requires { 0 < parts }
    ensures { result ≡ min (len / parts * count) len }
{
    (len / parts as usize)
        .saturating_mul(count as usize)
        .min(len)
}

// It cuts the text in two, reads both sides at the same time, and cuts each side again if it has more than one part.
fn rows_in_parts<R: Threads + Sync>(
    rt: &R,
    alloc: Global,
    text: &[u8],
    columns: &Columns,
    fields: u32,
    parts: u32,
) -> Result<Rows, BadRow>
    requires fields { fields ≤ MAX_FIELDS }
    requires columns { AllByRecursion (λ column. column.field < fields) columns.now }
    ensures rows { IfOk result (CsvRows fields columns.now text.now) }
    ensures refused { IfErr result (SourceRefused fields columns.now text.now) }
{
    if parts < 2 {
        return read_source(alloc, text, columns, fields);
    }
    let prefix_parts = parts / 2;
    let rest_parts = parts - prefix_parts;
    let Some(at) = cut_near(text, end_of_parts(text.len(), prefix_parts, parts)) else {
        return read_source(alloc, text, columns, fields);
    };
    let (prefix, rest) = text.split_at(at);
    let (prefix_read, rest_read) = join(
        rt,
        move || -> Result<Rows, BadRow>
            requires { IsSync R.row × (fields ≤ MAX_FIELDS) × AllByRecursion (λ column. column.field < fields) columns.now }
            ensures { IfOk result (CsvRows fields columns.entry.now prefix.entry.now) × IfErr result (SourceRefused fields columns.entry.now prefix.entry.now) }
        { rows_in_parts(rt, alloc, prefix, columns, fields, prefix_parts) },
        move || -> Result<Rows, BadRow>
            requires { IsSync R.row × (fields ≤ MAX_FIELDS) × AllByRecursion (λ column. column.field < fields) columns.now }
            ensures { IfOk result (CsvRows fields columns.entry.now rest.entry.now) × IfErr result (SourceRefused fields columns.entry.now rest.entry.now) }
        { rows_in_parts(rt, alloc, rest, columns, fields, rest_parts) },
    );
    match prefix_read {
        Ok(rows) => joined(rows, rest_read),
        Err(bad) => Err(bad),
    }
}

/// The rows of a source's CSV text, in their order, or the first bad row, exactly as `read_source` reports them.
///
/// The text is cut into at most `parts` parts of about the same length, and each is read on a thread of its own if the
/// system provides one. There are fewer parts if a line is long, or if a byte order mark follows a line's end.
pub fn read_source_on_threads<R: Threads + Sync>(
    rt: &R,
    alloc: Global,
    text: &[u8],
    columns: &Columns,
    fields: u32,
    parts: u32,
) -> Result<Rows, BadRow>
    requires fields { fields ≤ MAX_FIELDS }
    requires columns { AllByRecursion (λ column. column.field < fields) columns.now }
    ensures rows { IfOk result (CsvRows fields columns.now text.now) }
    ensures source_rows { IfOk result (AreSourceRows fields columns.now) }
    ensures bad_row { IfErr result (SourceRefused fields columns.now text.now) }
    ensures rows_always { (rows : List (List FieldsValue)) → CsvRows fields columns.now text.now rows → IfErr result IsMemory }
    ensures bad_row_always { (row column why : ℕ) → HasBadRow fields columns.now text.now row column why → IfOk result (λ _. ⊥) }
{
    rows_in_parts(rt, alloc, text, columns, fields, parts)
}

// A thread takes time to start and to join: reading a short text in two parts took 0.3 ms longer than in one. A part of
// this length takes 1.2 ms to read. On a machine with three times as many busy threads as processors, texts of 180 KB
// and more were read faster in parts, and those below 90 KB slower.
const PART_BYTES: usize = 64 * 1024;

/// In how many parts to read a text of `len` bytes: one for each full `PART_BYTES`, at most `threads` and at least one.
pub fn parts_for(len: usize, threads: u32) -> u32
    ensures { result ≡ max (min (len / PART_BYTES) threads) 1 }
{
    (len / PART_BYTES).min(threads as usize).max(1) as u32
}
