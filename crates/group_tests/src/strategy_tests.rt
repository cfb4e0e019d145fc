//! Both strategies beside the one that searches all groups.

ghost use Rattle.std.specs.Prelude.{◌≡◌, ◌<◌, ◌∷◌, [], true, length, IfOk};
ghost use Rattle.pact_record.specs.Widths.{AreBelow, AreWide};

use crate::tables::{colliding, crowded, table};
use group_table::GroupTable;
use local_strategy::{ListLocal, Local};
use pact_bag::Rows;
use pact_record::Keys;
use sort_local::SortLocal;
use std::alloc::Global;
use std::test::Fail;

// The records by these keys.
fn kept<L: Local>(alloc: Global, keys: &Keys, rows: &Rows) -> Result<L, Fail>
    requires wide { AreWide 2 rows.now }
    requires below { AreBelow 2 keys.now }
    ensures sealed { IfOk result (λ local. L.is_sealed local ≡ true) }
    ensures keys { IfOk result (λ local. L.key_fields local ≡ keys.now) }
{
    let mut local = L::start(alloc, keys)?;
    for row in rows.rows() {
        let copy = row.copy(alloc)?;
        local.add(copy)?;
    }
    local.seal()?;
    Ok(local)
}

// Whether these are the same records, in some order.
fn are_same(alloc: Global, found: &Rows, wanted: &Rows) -> Result<bool, Fail> {
    let mut found = found.copy(alloc)?.into_records();
    let mut wanted = wanted.copy(alloc)?.into_records();
    found.sort()?;
    wanted.sort()?;
    Ok(found == wanted)
}

// Whether both strategies lend the same records for the key values of each of these records, and give copies of them.
fn find_same<L: Local, M: Local>(
    alloc: Global,
    local: &L,
    other: &M,
    keys: &Keys,
    rows: &Rows,
) -> Result<bool, Fail>
    requires sealed { L.is_sealed local.now ≡ true }
    requires other_sealed { M.is_sealed other.now ≡ true }
    requires length { length keys.now ≡ length (L.key_fields local.now) }
    requires other_length { length keys.now ≡ length (M.key_fields other.now) }
    requires wide { AreWide 2 rows.now }
    requires below { AreBelow 2 keys.now }
{
    for row in rows.rows() {
        let lent = local.borrow_group_of(row, keys);
        if local.group_of(alloc, row, keys)?.rows() != lent.rows() {
            return Ok(false);
        }
        if !are_same(alloc, lent, other.borrow_group_of(row, keys))? {
            return Ok(false);
        }
    }
    Ok(true)
}

// Whether the records with the key of each of these records are the wanted ones.
fn has_groups<L: Local>(
    alloc: Global,
    local: &L,
    keys: &Keys,
    asked: &Rows,
    wanted: &Rows,
) -> Result<bool, Fail>
    requires sealed { L.is_sealed local.now ≡ true }
    requires length { length keys.now ≡ length (L.key_fields local.now) }
    requires wide { AreWide 2 asked.now }
    requires below { AreBelow 2 keys.now }
{
    for row in asked.rows() {
        if !are_same(alloc, local.borrow_group_of(row, keys), wanted)? {
            return Ok(false);
        }
    }
    Ok(true)
}

// How many records the groups have together. None if a group has no record, or if a copy of a group differs from it.
fn grouped<L: Local>(alloc: Global, local: &L) -> Result<Option<usize>, Fail>
    requires { L.is_sealed local.now ≡ true }
{
    let mut count: usize = 0;
    for n in 0..local.key_count() {
        let own = local.borrow_group_at(n);
        if own.len() == 0 || local.group_at(alloc, n)?.rows() != own.rows() {
            return Ok(None);
        }
        count = count.wrapping_add(own.len());
    }
    Ok(Some(count))
}

// Whether a strategy groups the records by these keys as the plain one does. For each of the records, and for each of
// the others, it must find what the plain one finds.
fn agrees<L: Local>(alloc: Global, keys: &Keys, rows: &Rows, others: &Rows) -> Result<bool, Fail>
    requires wide { AreWide 2 rows.now }
    requires others_wide { AreWide 2 others.now }
    requires below { AreBelow 2 keys.now }
{
    let local: L = kept(alloc, keys, rows)?;
    let list: ListLocal = kept(alloc, keys, rows)?;
    if local.key_count() != list.key_count() || grouped(alloc, &local)? != Some(rows.len()) {
        return Ok(false);
    }
    if !find_same(alloc, &local, &list, keys, rows)? {
        return Ok(false);
    }
    find_same(alloc, &local, &list, keys, others)
}

fn no_key() -> Keys
    ensures { result ≡ [] }
{
    Keys::new()
}

fn one_key(field: u32) -> Keys
    requires { field < 2 }
    ensures { result ≡ field ∷ [] }
{
    let mut keys = Keys::new();
    keys.push(field);
    keys
}

fn two_keys(first: u32, second: u32) -> Keys
    requires first { first < 2 }
    requires second { second < 2 }
    ensures { result ≡ first ∷ second ∷ [] }
{
    let mut keys = Keys::new();
    keys.push(first);
    keys.push(second);
    keys
}

// Whether both strategies agree with the plain one by these keys.
fn both_agree(alloc: Global, keys: &Keys, rows: &Rows, others: &Rows) -> Result<bool, Fail>
    requires wide { AreWide 2 rows.now }
    requires others_wide { AreWide 2 others.now }
    requires below { AreBelow 2 keys.now }
{
    if !agrees::<GroupTable>(alloc, keys, rows, others)? {
        return Ok(false);
    }
    agrees::<SortLocal>(alloc, keys, rows, others)
}

// Whether both strategies agree with the plain one by no key, by each of the fields, and by both fields in either
// order.
fn agree_by_all(alloc: Global, rows: &Rows, others: &Rows) -> Result<bool, Fail>
    requires wide { AreWide 2 rows.now }
    requires others_wide { AreWide 2 others.now }
{
    if !both_agree(alloc, &no_key(), rows, others)? {
        return Ok(false);
    }
    if !both_agree(alloc, &one_key(0), rows, others)?
        || !both_agree(alloc, &one_key(1), rows, others)?
    {
        return Ok(false);
    }
    if !both_agree(alloc, &two_keys(0, 1), rows, others)? {
        return Ok(false);
    }
    both_agree(alloc, &two_keys(1, 0), rows, others)
}

const ROWS: [(Option<i64>, &str); 12] = [
    (Some(1), "a"),
    (None, "b"),
    (Some(-1), ""),
    (Some(1), "b"),
    (None, ""),
    (Some(2), "ab"),
    (Some(i64::MIN), "ba"),
    (None, "b"),
    (Some(i64::MAX), "ab"),
    (Some(1), "a"),
    (Some(97), "Aa"),
    (Some(0), "BB"),
];

const OTHERS: [(Option<i64>, &str); 4] = [
    (Some(9), "a"),
    (None, "Aa"),
    (Some(1), "c"),
    (Some(-2), ""),
];

#[test]
fn strategies_group_alike(rt: HostRuntime) -> Result<(), Fail> {
    let others = table(rt.alloc(), &OTHERS)?;
    for count in 0..13usize {
        let rows = table(rt.alloc(), &ROWS[..count])?;
        assert!(rt; agree_by_all(rt.alloc(), &rows, &others)?);
    }
    Ok(())
}

#[test]
fn records_of_one_key_stay_together(rt: HostRuntime) -> Result<(), Fail> {
    let others = table(rt.alloc(), &OTHERS)?;
    let rows = table(rt.alloc(), &[(Some(1), "a"); 100])?;
    assert!(rt; agree_by_all(rt.alloc(), &rows, &others)?);
    Ok(())
}

#[test]
fn keys_of_one_bucket_are_told_apart(rt: HostRuntime) -> Result<(), Fail> {
    let others = table(rt.alloc(), &OTHERS)?;
    let one_code = colliding(rt.alloc(), 200)?;
    assert!(rt; agree_by_all(rt.alloc(), &one_code, &others)?);
    let one_place = crowded(rt.alloc())?;
    assert!(rt; agree_by_all(rt.alloc(), &one_place, &others)?);
    Ok(())
}

// Whether a key's records are found, and no records for a key that no record has.
fn finds<L: Local>(alloc: Global) -> Result<bool, Fail> {
    let rows = table(alloc, &[(Some(1), "5"), (Some(2), "-3"), (Some(1), "7")])?;
    let of_one = table(alloc, &[(Some(1), "5"), (Some(1), "7")])?;
    let none = table(alloc, &[])?;
    let asked = table(alloc, &[(Some(1), "0")])?;
    let absent = table(alloc, &[(Some(9), "0")])?;
    let keys = one_key(0);
    let local: L = kept(alloc, &keys, &rows)?;
    if local.key_count() != 2 {
        return Ok(false);
    }
    if !has_groups(alloc, &local, &keys, &asked, &of_one)? {
        return Ok(false);
    }
    has_groups(alloc, &local, &keys, &absent, &none)
}

#[test]
fn a_key_without_records_has_none(rt: HostRuntime) -> Result<(), Fail> {
    assert!(rt; finds::<GroupTable>(rt.alloc())?);
    assert!(rt; finds::<SortLocal>(rt.alloc())?);
    assert!(rt; finds::<ListLocal>(rt.alloc())?);
    Ok(())
}
