//! The text of a bag's records, in parts that are made on threads.

ghost use Rattle.std.specs.Prelude.{◌≡◌, ◌≤◌, ◌<◌, ◌/◌, length, map, max, min, IfOk};
ghost use Rattle.std.specs.List.{AllByRecursion};
ghost use Rattle.std.specs.Thread.{IsSync};
ghost use Rattle.pact_record.specs.declared.records.TheConstants.{MAX_FIELDS};
ghost use Rattle.pact_bag.specs.Rows.{cut};
ghost use Rattle.csv_sink.specs.CsvText.{csv_text};
ghost use Rattle.bag_lines.specs.Lines.{AreLines, CanFormat};
ghost use Rattle.bag_lines.specs.declared.lines.TheConstants.{PART_ROWS};

use csv_sink::write_fields;
use pact_bag::{Rows, sort_rows_by};
use pact_record::{Bytes, OutOfMemory, Record};
use std::alloc::Global;
use std::thread::{Threads, join};

// Where the first `count` of all `parts` end, if each part has the same number of records.
fn end_of_parts(len: usize, count: u32, parts: u32) -> usize
    requires { 0 < parts }
    ensures { result ≤ len }
{
    (len / parts as usize)
        .saturating_mul(count as usize)
        .min(len)
}

// It divides the records in two, makes both texts at the same time, and divides each side again if it has more than one
// part. A part's records are freed by the thread that made its text.
fn text_in_parts<R: Threads + Sync>(
    rt: &R,
    alloc: Global,
    records: Vec<Record>,
    fields: &[u32],
    parts: u32,
) -> Result<Bytes, OutOfMemory>
    requires { CanFormat fields.now records.items }
    ensures { IfOk result (λ text. text ≡ csv_text (map (cut fields.now) records.items)) }
{
    if parts < 2 {
        return write_fields(alloc, &records, fields);
    }
    let prefix_parts = parts / 2;
    let rest_parts = parts - prefix_parts;
    let mut prefix = records;
    let rest = prefix.split_off(end_of_parts(prefix.len(), prefix_parts, parts))?;
    let (prefix_text, rest_text) = join(
        rt,
        move || -> Result<Bytes, OutOfMemory>
            requires { IsSync R.row × CanFormat fields.now prefix.items }
            ensures { IfOk result (λ text. text ≡ csv_text (map (cut fields.entry.now) prefix.items)) }
        { text_in_parts(rt, alloc, prefix, fields, prefix_parts) },
        move || -> Result<Bytes, OutOfMemory>
            requires { IsSync R.row × CanFormat fields.now rest.items }
            ensures { IfOk result (λ text. text ≡ csv_text (map (cut fields.entry.now) rest.items)) }
        { text_in_parts(rt, alloc, rest, fields, rest_parts) },
    );
    let mut text = prefix_text?;
    let more = rest_text?;
    text.extend_from_slice(more.bytes())?;
    Ok(text)
}

/// The lines of a bag: its records cut to the given fields, sorted, as CSV text.
pub fn sorted_lines(alloc: Global, bag: Rows, fields: &[u32]) -> Result<Bytes, OutOfMemory>
    requires few { length fields.now ≤ MAX_FIELDS }
    requires within { AllByRecursion (λ row. AllByRecursion (λ field. field < length row) fields.now) bag }
    ensures { IfOk result (λ text. AreLines fields.now bag text) }
{
    let rows = sort_rows_by(bag, fields)?;
    write_fields(alloc, rows.rows(), fields)
}

/// The lines that `sorted_lines` returns. The sorted records are cut into `parts` parts of about the same length. The
/// text of each part is made, and its records are freed, on a separate thread if the system provides one.
pub fn sorted_lines_on_threads<R: Threads + Sync>(
    rt: &R,
    alloc: Global,
    bag: Rows,
    fields: &[u32],
    parts: u32,
) -> Result<Bytes, OutOfMemory>
    requires few { length fields.now ≤ MAX_FIELDS }
    requires within { AllByRecursion (λ row. AllByRecursion (λ field. field < length row) fields.now) bag }
    ensures { IfOk result (λ text. AreLines fields.now bag text) }
{
    let rows = sort_rows_by(bag, fields)?;
    text_in_parts(rt, alloc, rows.into_records(), fields, parts)
}

// A thread takes time to start and to join: 25,000 short rows took as long in two parts as in one with two threads, and
// a thirtieth less with four.
const PART_ROWS: usize = 12_500;

/// In how many parts to make the text of that number of rows: one for each full `PART_ROWS`, at most `threads` and at
/// least one.
pub fn parts_for_rows(rows: usize, threads: u32) -> u32
    ensures { result ≡ max (min (rows / PART_ROWS) threads) 1 }
{
    (rows / PART_ROWS).min(threads as usize).max(1) as u32
}
