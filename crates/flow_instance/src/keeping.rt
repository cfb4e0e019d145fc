//! Records that are kept until they are looked up.

ghost use Rattle.std.specs.Prelude.{◌≡◌, ◌||◌, false, filter, length, not, OnOk};
ghost use Rattle.pact_bag.specs.Pairs.{has_null};
ghost use Rattle.pact_record.specs.Record.{key_of};
ghost use Rattle.pact_record.specs.Widths.{AreBelow, AreWide};
ghost use Rattle.flow_instance.specs.Keeping.{IsKept, IsRowKept, may_match};

use local_strategy::Local;
use pact_bag::{Rows, has_null};
use pact_record::{Keys, OutOfMemory, Record};

/// Whether a record may match another one by these keys. `nulls` says whether Nulls match in keys.
pub(crate) fn may_match(nulls: bool, keys: &Keys, row: &Record) -> bool
    requires { AreBelow (length row.now) keys.now }
    ensures { result ≡ may_match nulls keys.now row.now }
{
    nulls || !has_null(row, keys)
}

// Keeps the row if it may match by these keys.
fn keep_row<L: Local>(
    kept: &mut L,
    nulls: bool,
    keys: &Keys,
    row: Record,
) -> Result<(), OutOfMemory>
    requires not_sealed { L.is_sealed kept.old ≡ false }
    requires width { AreWide (length row) (L.rows kept.old) }
    requires below { AreBelow (length row) (L.key_fields kept.old) }
    requires keys { AreBelow (length row) keys.now }
    ensures { OnOk result (IsRowKept L.rows L.key_fields L.is_sealed (may_match nulls keys.now) row kept.old kept.new) }
{
    if !may_match(nulls, keys, &row) {
        return Ok(());
    }
    kept.add(row)
}

/// Keeps those of the rows that may match by these keys. All rows have `fields` fields, which only the contract reads.
pub(crate) fn keep<L: Local>(
    kept: &mut L,
    fields: u32,
    nulls: bool,
    keys: &Keys,
    rows: Rows,
) -> Result<(), OutOfMemory>
    requires not_sealed { L.is_sealed kept.old ≡ false }
    requires wide { AreWide fields (L.rows kept.old) }
    requires rows_wide { AreWide fields rows }
    requires below { AreBelow fields (L.key_fields kept.old) }
    requires keys { AreBelow fields keys.now }
    ensures { OnOk result (IsKept L.rows L.key_fields L.is_sealed fields (filter (may_match nulls keys.now) rows) kept.old kept.new) }
{
    for row in rows.into_records() {
        keep_row(kept, nulls, keys, row)?;
    }
    Ok(())
}
