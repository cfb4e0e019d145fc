//! One call for each record, or for each pair of records.

ghost use Rattle.std.specs.Prelude.{◌≡◌, ◌<◌, ◌⊎◌, ◌++◌, flat_map, length, IfOk, OnOk};
ghost use Rattle.std.specs.List.{AllByRecursion};
ghost use Rattle.tac_syntax.specs.declared.functions.Kind.TheVariants.{Cross, Map, Match};
ghost use Rattle.tac_syntax.specs.Call.{Out, of_pair, of_record};
ghost use Rattle.pact_bag.specs.Pairs.{crossed, matched};
ghost use Rattle.pact_record.specs.Widths.{AreBelow, AreWide};

use crate::calls::{map_into, pair_into};
use crate::scratches::Scratch;
use pact_bag::{Rows, has_null};
use pact_record::{Keys, OutOfMemory, Record};
use std::alloc::Global;
use std::cmp::Ordering;
use tac_syntax::Valid;

/// The output of a Map. A row that its function emits unchanged at its end is moved and not copied.
pub fn map_rows(alloc: Global, f: &Valid, rows: Rows) -> Result<Rows, OutOfMemory>
    requires kind { f.now.function.kind ≡ Map }
    requires widths { AreWide f.now.fields rows }
    ensures given { IfOk result (λ out. out ≡ flat_map (λ row. Out f.now.fields f.now.function.body (of_record row)) rows) }
    ensures widths { IfOk result (AreWide f.now.fields) }
{
    let mut scratch = Scratch::new(alloc);
    let mut out = Rows::new(alloc);
    for row in rows.into_records() {
        map_into(alloc, f, row, &mut scratch, &mut out)?;
    }
    Ok(out)
}

// Appends the outputs of the calls for the pairs of one left record. If Nulls don't match, a key with a Null matches
// nothing.
fn append_pairs(
    alloc: Global,
    nulls: bool,
    f: &Valid,
    left_keys: &Keys,
    right_keys: &Keys,
    left: &Record,
    rights: &Rows,
    scratch: &mut Scratch,
    out: &mut Rows,
) -> Result<(), OutOfMemory>
    requires kind { (f.now.function.kind ≡ Match) ⊎ (f.now.function.kind ≡ Cross) }
    requires keys { length left_keys.now ≡ length right_keys.now }
    requires left_below { AreBelow f.now.fields left_keys.now }
    requires right_below { AreBelow f.now.fields right_keys.now }
    requires left_width { length left.now ≡ f.now.fields }
    requires right_widths { AreWide f.now.fields rights.now }
    requires widths { AreWide f.now.fields out.old }
    ensures given { OnOk result (out.new ≡ out.old ++ flat_map (matched nulls (λ l r. Out f.now.fields f.now.function.body (of_pair l r)) left_keys.now right_keys.now left.now) rights.now) }
    ensures widths { OnOk result (AreWide f.now.fields out.new) }
{
    for right in rights.rows() {
        if left.key_compare(left_keys, right, right_keys) == Ordering::Equal
            && (nulls || !has_null(left, left_keys))
        {
            pair_into(alloc, f, left, right, scratch, out)?;
        }
    }
    Ok(())
}

/// The output of a Match; `nulls` says whether Nulls match in keys.
pub fn match_rows(
    alloc: Global,
    nulls: bool,
    f: &Valid,
    left_keys: &Keys,
    right_keys: &Keys,
    lefts: &Rows,
    rights: &Rows,
) -> Result<Rows, OutOfMemory>
    requires kind { (f.now.function.kind ≡ Match) ⊎ (f.now.function.kind ≡ Cross) }
    requires keys { length left_keys.now ≡ length right_keys.now }
    requires left_below { AreBelow f.now.fields left_keys.now }
    requires right_below { AreBelow f.now.fields right_keys.now }
    requires left_widths { AreWide f.now.fields lefts.now }
    requires right_widths { AreWide f.now.fields rights.now }
    ensures given { IfOk result (λ out. out ≡ crossed (matched nulls (λ l r. Out f.now.fields f.now.function.body (of_pair l r)) left_keys.now right_keys.now) lefts.now rights.now) }
    ensures widths { IfOk result (AreWide f.now.fields) }
{
    let mut scratch = Scratch::new(alloc);
    let mut out = Rows::new(alloc);
    for left in lefts.rows() {
        append_pairs(
            alloc,
            nulls,
            f,
            left_keys,
            right_keys,
            left,
            rights,
            &mut scratch,
            &mut out,
        )?;
    }
    Ok(out)
}

/// The output of a Cross: a Match without keys, in which each pair matches.
pub fn cross_rows(
    alloc: Global,
    f: &Valid,
    lefts: &Rows,
    rights: &Rows,
) -> Result<Rows, OutOfMemory>
    requires kind { f.now.function.kind ≡ Cross }
    requires left_widths { AreWide f.now.fields lefts.now }
    requires right_widths { AreWide f.now.fields rights.now }
    ensures given { IfOk result (λ out. out ≡ crossed (λ l r. Out f.now.fields f.now.function.body (of_pair l r)) lefts.now rights.now) }
    ensures widths { IfOk result (AreWide f.now.fields) }
{
    match_rows(alloc, true, f, &Keys::new(), &Keys::new(), lefts, rights)
}
