//! Calls for the groups of kept records.

ghost use Rattle.std.specs.Prelude.{◌≡◌, ◌<◌, ℕ, true, List, length, slice_get, IfOk, IfSome, OnOk};
ghost use Rattle.std.specs.List.{AllByRecursion};
ghost use Rattle.std.specs.List.Sorted.{IsPermutation};
ghost use Rattle.pact_operators.specs.Allowed.{keys_in};
ghost use Rattle.pact_record.specs.Record.{key_of};
ghost use Rattle.pact_record.specs.Widths.{AreBelow, AreWide};
ghost use Rattle.pact_record.specs.declared.values.Value.{Value as FieldValue};
ghost use Rattle.tac_syntax.specs.Call.{Out, of_group, of_groups};
ghost use Rattle.tac_syntax.specs.declared.functions.Kind.TheVariants.{Reduce};
ghost use Rattle.flow_instance.specs.Grouping.{AreCoGroupsGiven, AreGroupsAt, AreGroupsGiven, AreSides, EachGives, IsAppended, IsCalled, IsCalledFrom, IsGivenFrom};

use local_strategy::Local;
use pact_bag::Rows;
use pact_record::{Keys, OutOfMemory};
use std::alloc::Global;
use tac_interp::{Scratch, cogroup_into, group_into};
use tac_syntax::Valid;

// Appends what the call for the group with this number emits.
fn reduce_one<L: Local>(
    alloc: Global,
    f: &Valid,
    keys: &Keys,
    kept: &L,
    n: usize,
    scratch: &mut Scratch,
    out: &mut Rows,
) -> Result<(), OutOfMemory>
    requires kind { f.now.function.kind ≡ Reduce }
    requires key_count { length keys.now ≡ f.now.function.keys }
    requires keys_below { AreBelow f.now.fields keys.now }
    requires keys { L.key_fields kept.now ≡ keys.now }
    requires sealed { L.is_sealed kept.now ≡ true }
    requires widths { AreWide f.now.fields (L.rows kept.now) }
    requires number { n < length (L.order kept.now) }
    requires order { IsPermutation (keys_in (L.key_fields kept.now) (L.rows kept.now)) (L.order kept.now) }
    requires out_widths { AreWide f.now.fields out.old }
    ensures given { OnOk result (IsAppended (λ part. IfSome (slice_get (L.order kept.now) n) (λ key. IsCalled (λ k group. Out f.now.fields f.now.function.body (of_group k group)) keys.now (L.rows kept.now) key part)) out.old out.new) }
    ensures widths { OnOk result (AreWide f.now.fields out.new) }
{
    let group = kept.borrow_group_at(n);
    group_into(alloc, f, keys, group, scratch, out)
}

/// What a Reduce emits for its kept records, in any order.
pub(crate) fn reduce_kept<L: Local>(
    alloc: Global,
    f: &Valid,
    keys: &Keys,
    kept: &L,
) -> Result<Rows, OutOfMemory>
    requires kind { f.now.function.kind ≡ Reduce }
    requires key_count { length keys.now ≡ f.now.function.keys }
    requires keys_below { AreBelow f.now.fields keys.now }
    requires keys { L.key_fields kept.now ≡ keys.now }
    requires sealed { L.is_sealed kept.now ≡ true }
    requires widths { AreWide f.now.fields (L.rows kept.now) }
    ensures given { IfOk result (AreGroupsGiven (λ k group. Out f.now.fields f.now.function.body (of_group k group)) keys.now (L.rows kept.now)) }
    ensures widths { IfOk result (AreWide f.now.fields) }
{
    let mut scratch = Scratch::new(alloc);
    let mut out = Rows::new(alloc);
    for n in 0..kept.key_count() {
        reduce_one(alloc, f, keys, kept, n, &mut scratch, &mut out)?;
    }
    Ok(out)
}

// The side whose keys are visited.
#[derive(Clone, Copy)]
enum Side {
    Left,
    Right,
}

// The groups of one key, borrowed.
#[derive(Clone, Copy)]
struct Groups<'a> {
    own: &'a Rows,
    other: &'a Rows,
}

// Both groups of the key with this number on this side. Only the other side's group may be empty.
fn groups_at<'a, L: Local>(keys: &Keys, own: &'a L, others: &'a L, n: usize) -> Groups<'a>
    requires own_sealed { L.is_sealed own.now ≡ true }
    requires others_sealed { L.is_sealed others.now ≡ true }
    requires same { L.key_fields own.now ≡ keys.now }
    requires count { length keys.now ≡ length (L.key_fields others.now) }
    requires below { (fields : ℕ) × AreBelow fields keys.now × AreWide fields (L.rows own.now) }
    requires number { n < length (L.order own.now) }
    requires order { IsPermutation (keys_in (L.key_fields own.now) (L.rows own.now)) (L.order own.now) }
    ensures { AreGroupsAt keys.now (L.key_fields others.now) (L.rows own.now) (L.rows others.now) (L.order own.now) n result.own.now result.other.now }
{
    let own_group = own.borrow_group_at(n);
    let other = others.borrow_group_of(own_group.at(0), keys);
    Groups {
        own: own_group,
        other,
    }
}

// Appends what the call for the groups of a key emits. A key of the right side is called only if the left side lacks
// it, so that each key has exactly one call.
fn call_from(
    alloc: Global,
    f: &Valid,
    keys: &Keys,
    other_keys: &Keys,
    groups: Groups<'_>,
    side: Side,
    scratch: &mut Scratch,
    out: &mut Rows,
) -> Result<(), OutOfMemory>
    requires sides { AreSides f.now keys.now other_keys.now keys.now other_keys.now groups.own.now groups.other.now }
    requires some { 0 < length groups.own.now }
    requires out_widths { AreWide f.now.fields out.old }
    ensures given { (key : List FieldValue) → AllByRecursion (λ row. key_of keys.now row ≡ key) groups.entry.own.now → AllByRecursion (λ row. key_of other_keys.now row ≡ key) groups.entry.other.now
        → OnOk result (IsAppended (IsGivenFrom side (λ k l r. Out f.now.fields f.now.function.body (of_groups k l r)) key groups.entry.own.now groups.entry.other.now) out.old out.new) }
    ensures widths { OnOk result (AreWide f.now.fields out.new) }
{
    let Groups { own, other } = groups;
    match side {
        Side::Left => cogroup_into(alloc, f, keys, other_keys, own, other, scratch, out),
        Side::Right => {
            if other.len() > 0 {
                return Ok(());
            }
            cogroup_into(alloc, f, other_keys, keys, other, own, scratch, out)
        }
    }
}

// What the calls for the keys of one side emit.
fn cogroup_side<L: Local>(
    alloc: Global,
    f: &Valid,
    keys: &Keys,
    other_keys: &Keys,
    own: &L,
    others: &L,
    side: Side,
) -> Result<Rows, OutOfMemory>
    requires sides { AreSides f.now keys.now other_keys.now (L.key_fields own.now) (L.key_fields others.now) (L.rows own.now) (L.rows others.now) }
    requires own_sealed { L.is_sealed own.now ≡ true }
    requires others_sealed { L.is_sealed others.now ≡ true }
    ensures given { IfOk result (EachGives (IsCalledFrom side (λ k l r. Out f.now.fields f.now.function.body (of_groups k l r)) keys.now other_keys.now (L.rows own.now) (L.rows others.now)) (L.order own.now)) }
    ensures order { OnOk result (IsPermutation (keys_in keys.now (L.rows own.now)) (L.order own.now)) }
    ensures widths { IfOk result (AreWide f.now.fields) }
{
    let mut scratch = Scratch::new(alloc);
    let mut out = Rows::new(alloc);
    for n in 0..own.key_count() {
        let groups = groups_at(keys, own, others, n);
        call_from(
            alloc,
            f,
            keys,
            other_keys,
            groups,
            side,
            &mut scratch,
            &mut out,
        )?;
    }
    Ok(out)
}

/// What a CoGroup emits for its kept records, in any order.
pub(crate) fn cogroup_kept<L: Local>(
    alloc: Global,
    f: &Valid,
    left_keys: &Keys,
    right_keys: &Keys,
    lefts: &L,
    rights: &L,
) -> Result<Rows, OutOfMemory>
    requires sides { AreSides f.now left_keys.now right_keys.now (L.key_fields lefts.now) (L.key_fields rights.now) (L.rows lefts.now) (L.rows rights.now) }
    requires left_sealed { L.is_sealed lefts.now ≡ true }
    requires right_sealed { L.is_sealed rights.now ≡ true }
    ensures given { IfOk result (AreCoGroupsGiven (λ k l r. Out f.now.fields f.now.function.body (of_groups k l r)) left_keys.now right_keys.now (L.rows lefts.now) (L.rows rights.now)) }
    ensures widths { IfOk result (AreWide f.now.fields) }
{
    let mut out = cogroup_side(alloc, f, left_keys, right_keys, lefts, rights, Side::Left)?;
    let mut alone = cogroup_side(alloc, f, right_keys, left_keys, rights, lefts, Side::Right)?;
    out.append(&mut alone)?;
    Ok(out)
}
