//! One call for each group of records with equal keys.

ghost use Rattle.std.specs.Prelude.{◌≡◌, ◌<◌, ◌++◌, List, length, map, IfOk, OnOk};
ghost use Rattle.pact_record.specs.declared.values.Value.{Value as FieldValue};
ghost use Rattle.std.specs.List.{AllByRecursion, list_any};
ghost use Rattle.pact_record.specs.Record.{key_of};
ghost use Rattle.tac_syntax.specs.declared.functions.Kind.TheVariants.{CoGroup, Reduce};
ghost use Rattle.tac_syntax.specs.Call.{Out, of_group, of_groups};
ghost use Rattle.pact_bag.specs.Groups.{distinct_keys, group_of_key, is_same_key};
ghost use Rattle.pact_operators.specs.Allowed.{CoGrouped, Grouped, keys_in, keys_in_either};
ghost use Rattle.slow_eval.specs.Keyed.{HasEitherGroup, HasGroup};
ghost use Rattle.pact_record.specs.Widths.{AreBelow, AreWide};

use pact_bag::Rows;
use pact_record::{Keys, OutOfMemory, Record};
use std::alloc::Global;
use tac_interp::{Scratch, cogroup_into, group_into};
use tac_syntax::Valid;

// Whether some of the keys are those of the record.
fn is_known(row: &Record, keys: &Keys, found: &[Record]) -> bool
    requires below { AreBelow (length row.now) keys.now }
    requires widths { AreWide (length keys.now) found.now }
    ensures { result ≡ list_any (λ key. is_same_key key (key_of keys.now row.now)) found.now }
{
    for key in found {
        if row.has_key(keys, key) {
            return true;
        }
    }
    false
}

// The key values of the records, each once, appended to those of other records. A key is made only if it is new.
fn with_keys(alloc: Global, keys: &Keys, rows: &Rows, found: Rows) -> Result<Rows, OutOfMemory>
    requires below { AllByRecursion (λ row. AreBelow (length row) keys.now) rows.now }
    requires widths { AreWide (length keys.now) found }
    ensures keys { (before : List (List FieldValue)) → found ≡ distinct_keys before → IfOk result (λ all. all ≡ distinct_keys (before ++ map (key_of keys.now) rows.now)) }
    ensures widths { IfOk result (AreWide (length keys.now)) }
{
    let mut all = found;
    for row in rows.rows() {
        if !is_known(row, keys, all.rows()) {
            all.push(row.key(alloc, keys)?)?;
        }
    }
    Ok(all)
}

// The records that have these key values.
fn group_of(
    alloc: Global,
    fields: u32,
    keys: &Keys,
    rows: &Rows,
    key: &Record,
) -> Result<Rows, OutOfMemory>
    requires length { length key.now ≡ length keys.now }
    requires below { AreBelow fields keys.now }
    requires widths { AreWide fields rows.now }
    ensures group { IfOk result (λ group. group ≡ group_of_key keys.now rows.now key.now) }
    ensures widths { IfOk result (AreWide fields) }
{
    let mut group = Rows::new(alloc);
    for row in rows.rows() {
        if row.has_key(keys, key) {
            group.push(row.copy(alloc)?)?;
        }
    }
    Ok(group)
}

// The key values that occur in some records.
fn keys_in(alloc: Global, keys: &Keys, rows: &Rows) -> Result<Rows, OutOfMemory>
    requires { AllByRecursion (λ row. AreBelow (length row) keys.now) rows.now }
    ensures keys { IfOk result (λ found. found ≡ keys_in keys.now rows.now) }
    ensures widths { IfOk result (AreWide (length keys.now)) }
    ensures groups { IfOk result (AllByRecursion (HasGroup keys.now rows.now)) }
{
    with_keys(alloc, keys, rows, Rows::new(alloc))
}

// The key values that occur in some records, or in others.
fn keys_in_either(
    alloc: Global,
    left_keys: &Keys,
    right_keys: &Keys,
    lefts: &Rows,
    rights: &Rows,
) -> Result<Rows, OutOfMemory>
    requires same { length right_keys.now ≡ length left_keys.now }
    requires left_below { AllByRecursion (λ row. AreBelow (length row) left_keys.now) lefts.now }
    requires right_below { AllByRecursion (λ row. AreBelow (length row) right_keys.now) rights.now }
    ensures keys { IfOk result (λ found. found ≡ keys_in_either left_keys.now right_keys.now lefts.now rights.now) }
    ensures widths { IfOk result (AreWide (length left_keys.now)) }
    ensures groups { IfOk result (AllByRecursion (HasEitherGroup left_keys.now right_keys.now lefts.now rights.now)) }
{
    let found = with_keys(alloc, left_keys, lefts, Rows::new(alloc))?;
    with_keys(alloc, right_keys, rights, found)
}

// Appends what the call for the records with these key values emits.
fn call_for_key(
    alloc: Global,
    f: &Valid,
    keys: &Keys,
    rows: &Rows,
    key: &Record,
    scratch: &mut Scratch,
    out: &mut Rows,
) -> Result<(), OutOfMemory>
    requires kind { f.now.function.kind ≡ Reduce }
    requires keys { length keys.now ≡ f.now.function.keys }
    requires below { AreBelow f.now.fields keys.now }
    requires row_widths { AreWide f.now.fields rows.now }
    requires length { length key.now ≡ length keys.now }
    requires group { HasGroup keys.now rows.now key.now }
    requires widths { AreWide f.now.fields out.old }
    ensures given { OnOk result (out.new ≡ out.old ++ Out f.now.fields f.now.function.body (of_group key.now (group_of_key keys.now rows.now key.now))) }
    ensures widths { OnOk result (AreWide f.now.fields out.new) }
{
    let group = group_of(alloc, f.fields(), keys, rows, key)?;
    group_into(alloc, f, keys, &group, scratch, out)
}

/// What a Reduce emits, with each group in the order of its records.
pub(crate) fn reduce_rows(
    alloc: Global,
    f: &Valid,
    keys: &Keys,
    rows: &Rows,
) -> Result<Rows, OutOfMemory>
    requires kind { f.now.function.kind ≡ Reduce }
    requires keys { length keys.now ≡ f.now.function.keys }
    requires below { AreBelow f.now.fields keys.now }
    requires widths { AreWide f.now.fields rows.now }
    ensures given { IfOk result (Grouped (λ key group. Out f.now.fields f.now.function.body (of_group key group)) keys.now rows.now (keys_in keys.now rows.now)) }
    ensures widths { IfOk result (AreWide f.now.fields) }
{
    let found = keys_in(alloc, keys, rows)?;
    let mut scratch = Scratch::new(alloc);
    let mut out = Rows::new(alloc);
    for key in found.rows() {
        call_for_key(alloc, f, keys, rows, key, &mut scratch, &mut out)?;
    }
    Ok(out)
}

// Appends what the call for the records of either side with these key values emits.
fn call_for_either(
    alloc: Global,
    f: &Valid,
    left_keys: &Keys,
    right_keys: &Keys,
    lefts: &Rows,
    rights: &Rows,
    key: &Record,
    scratch: &mut Scratch,
    out: &mut Rows,
) -> Result<(), OutOfMemory>
    requires kind { f.now.function.kind ≡ CoGroup }
    requires left_keys { length left_keys.now ≡ f.now.function.keys }
    requires right_keys { length right_keys.now ≡ f.now.function.keys }
    requires left_below { AreBelow f.now.fields left_keys.now }
    requires right_below { AreBelow f.now.fields right_keys.now }
    requires left_widths { AreWide f.now.fields lefts.now }
    requires right_widths { AreWide f.now.fields rights.now }
    requires length { length key.now ≡ length left_keys.now }
    requires group { HasEitherGroup left_keys.now right_keys.now lefts.now rights.now key.now }
    requires widths { AreWide f.now.fields out.old }
    ensures given { OnOk result (out.new ≡ out.old ++ Out f.now.fields f.now.function.body (of_groups key.now (group_of_key left_keys.now lefts.now key.now) (group_of_key right_keys.now rights.now key.now))) }
    ensures widths { OnOk result (AreWide f.now.fields out.new) }
{
    let left = group_of(alloc, f.fields(), left_keys, lefts, key)?;
    let right = group_of(alloc, f.fields(), right_keys, rights, key)?;
    cogroup_into(alloc, f, left_keys, right_keys, &left, &right, scratch, out)
}

/// What a CoGroup emits, with each group in the order of its records.
pub(crate) fn cogroup_rows(
    alloc: Global,
    f: &Valid,
    left_keys: &Keys,
    right_keys: &Keys,
    lefts: &Rows,
    rights: &Rows,
) -> Result<Rows, OutOfMemory>
    requires kind { f.now.function.kind ≡ CoGroup }
    requires left_keys { length left_keys.now ≡ f.now.function.keys }
    requires right_keys { length right_keys.now ≡ f.now.function.keys }
    requires left_below { AreBelow f.now.fields left_keys.now }
    requires right_below { AreBelow f.now.fields right_keys.now }
    requires left_widths { AreWide f.now.fields lefts.now }
    requires right_widths { AreWide f.now.fields rights.now }
    ensures given { IfOk result (CoGrouped (λ key left right. Out f.now.fields f.now.function.body (of_groups key left right)) left_keys.now right_keys.now lefts.now rights.now (keys_in_either left_keys.now right_keys.now lefts.now rights.now)) }
    ensures widths { IfOk result (AreWide f.now.fields) }
{
    let found = keys_in_either(alloc, left_keys, right_keys, lefts, rights)?;
    let mut scratch = Scratch::new(alloc);
    let mut out = Rows::new(alloc);
    for key in found.rows() {
        call_for_either(
            alloc,
            f,
            left_keys,
            right_keys,
            lefts,
            rights,
            key,
            &mut scratch,
            &mut out,
        )?;
    }
    Ok(out)
}
