//! The worker to which the key values of a record send it.

ghost use Rattle.std.specs.Prelude.{◌≡◌, ◌≤◌, ◌<◌, ◌-◌, ◌++◌, ◌↔◌, ℕ, length, replicate, IfOk, IsTrue};
ghost use Rattle.pact_record.specs.Hash as hash;
ghost use Rattle.pact_record.specs.Record.{key_of};
ghost use Rattle.pact_record.specs.Widths.{AreBelow, AreWide};
ghost use Rattle.pact_record.specs.declared.records.TheConstants.{MAX_FIELDS};

use pact_bag::Rows;
use pact_record::{Keys, MAX_FIELDS, OutOfMemory, Record, Value};
use std::alloc::Global;

// It looks at every key instead of stopping at the first that is too large, so that its contract bounds all keys by
// `MAX_FIELDS`.
fn are_below(keys: &Keys, fields: u32) -> bool
    ensures below { IsTrue result ↔ AreBelow fields keys.now }
    ensures fields { AreBelow MAX_FIELDS keys.now }
{
    let mut below = true;
    for n in 0..keys.len() {
        below &= keys.at(n) < fields;
    }
    below
}

// The record, with Null in each field that it lacks.
fn filled_up(alloc: Global, row: &Record) -> Result<Record, OutOfMemory>
    ensures { IfOk result (λ r. r ≡ row.now ++ replicate (MAX_FIELDS - length row.now) Value.Null) }
{
    let mut filled = Record::empty(alloc, MAX_FIELDS)?;
    for field in 0..row.len() {
        filled.set(field, row.get(field).copy(alloc)?);
    }
    Ok(filled)
}

/// Whether the rows have all key fields. If there is no row, the answer may be no.
pub(crate) fn have_fields(rows: &Rows, keys: &Keys) -> bool
    ensures below { IsTrue result → (fields : ℕ) → AreWide fields rows.now → AreBelow fields keys.now }
    ensures fields { AreBelow MAX_FIELDS keys.now }
{
    if rows.len() == 0 {
        return are_below(keys, 0);
    }
    are_below(keys, rows.at(0).len())
}

/// The worker to which the record's key values send it. A key field that the record lacks counts as Null; `is_whole`
/// says that it lacks none.
pub(crate) fn target(
    alloc: Global,
    row: &Record,
    keys: &Keys,
    workers: u32,
    is_whole: bool,
) -> Result<u32, OutOfMemory>
    requires some { 1 ≤ workers }
    requires whole { IsTrue is_whole → AreBelow (length row.now) keys.now }
    requires fields { AreBelow MAX_FIELDS keys.now }
    ensures value { IfOk result (λ to. to ≡ hash.target workers (key_of keys.now row.now)) }
    ensures below { IfOk result (λ to. to < workers) }
{
    if is_whole {
        return Ok(row.target(keys, workers));
    }
    let filled = filled_up(alloc, row)?;
    Ok(filled.target(keys, workers))
}
