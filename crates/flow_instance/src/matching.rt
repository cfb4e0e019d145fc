//! Calls for the pairs of a kept record and a record of a batch.

ghost use Rattle.std.specs.Prelude.{◌≡◌, ◌⊎◌, ◌++◌, [], true, flat_map, length, IfOk, OnOk};
ghost use Rattle.std.specs.List.Sorted.{IsPermutation};
ghost use Rattle.tac_syntax.specs.Call.{Out, of_pair};
ghost use Rattle.tac_syntax.specs.declared.functions.Kind.TheVariants.{Cross, Match};
ghost use Rattle.pact_bag.specs.Pairs.{crossed, matched};
ghost use Rattle.pact_record.specs.Widths.{AreBelow, AreWide};

use crate::keeping::may_match;
use local_strategy::Local;
use pact_bag::Rows;
use pact_record::{Keys, OutOfMemory, Record};
use std::alloc::Global;
use tac_interp::{Scratch, cross_rows, pair_into};
use tac_syntax::Valid;

// Appends what the calls for the pairs of one right record emit.
fn append_pairs(
    alloc: Global,
    f: &Valid,
    lefts: &Rows,
    right: &Record,
    scratch: &mut Scratch,
    out: &mut Rows,
) -> Result<(), OutOfMemory>
    requires kind { (f.now.function.kind ≡ Match) ⊎ (f.now.function.kind ≡ Cross) }
    requires left_widths { AreWide f.now.fields lefts.now }
    requires right_width { length right.now ≡ f.now.fields }
    requires widths { AreWide f.now.fields out.old }
    ensures given { OnOk result (out.new ≡ out.old ++ flat_map (λ l. Out f.now.fields f.now.function.body (of_pair l right.now)) lefts.now) }
    ensures widths { OnOk result (AreWide f.now.fields out.new) }
{
    for left in lefts.rows() {
        pair_into(alloc, f, left, right, scratch, out)?;
    }
    Ok(())
}

// Appends what the calls for the pairs of one right record and the kept ones emit. If Nulls don't match, a key with a
// Null is never looked up.
fn append_matches<L: Local>(
    alloc: Global,
    nulls: bool,
    f: &Valid,
    kept: &L,
    right: &Record,
    right_keys: &Keys,
    scratch: &mut Scratch,
    out: &mut Rows,
) -> Result<(), OutOfMemory>
    requires kind { (f.now.function.kind ≡ Match) ⊎ (f.now.function.kind ≡ Cross) }
    requires sealed { L.is_sealed kept.now ≡ true }
    requires keys { length right_keys.now ≡ length (L.key_fields kept.now) }
    requires right_below { AreBelow f.now.fields right_keys.now }
    requires left_widths { AreWide f.now.fields (L.rows kept.now) }
    requires right_width { length right.now ≡ f.now.fields }
    requires widths { AreWide f.now.fields out.old }
    ensures given { OnOk result (IsPermutation (out.old ++ flat_map (λ l. matched nulls (λ a b. Out f.now.fields f.now.function.body (of_pair a b)) (L.key_fields kept.now) right_keys.now l right.now) (L.rows kept.now)) out.new) }
    ensures widths { OnOk result (AreWide f.now.fields out.new) }
{
    if !may_match(nulls, right_keys, right) {
        return Ok(());
    }
    let lefts = kept.borrow_group_of(right, right_keys);
    append_pairs(alloc, f, lefts, right, scratch, out)
}

/// What a Match emits for its kept left records and these right ones, in any order. `nulls` says whether Nulls match in
/// keys.
pub(crate) fn match_kept<L: Local>(
    alloc: Global,
    nulls: bool,
    f: &Valid,
    kept: &L,
    right_keys: &Keys,
    rights: &Rows,
) -> Result<Rows, OutOfMemory>
    requires kind { (f.now.function.kind ≡ Match) ⊎ (f.now.function.kind ≡ Cross) }
    requires sealed { L.is_sealed kept.now ≡ true }
    requires keys { length right_keys.now ≡ length (L.key_fields kept.now) }
    requires right_below { AreBelow f.now.fields right_keys.now }
    requires left_widths { AreWide f.now.fields (L.rows kept.now) }
    requires right_widths { AreWide f.now.fields rights.now }
    ensures given { IfOk result (IsPermutation (crossed (matched nulls (λ l r. Out f.now.fields f.now.function.body (of_pair l r)) (L.key_fields kept.now) right_keys.now) (L.rows kept.now) rights.now)) }
    ensures widths { IfOk result (AreWide f.now.fields) }
{
    let mut scratch = Scratch::new(alloc);
    let mut out = Rows::new(alloc);
    for right in rights.rows() {
        append_matches(
            alloc,
            nulls,
            f,
            kept,
            right,
            right_keys,
            &mut scratch,
            &mut out,
        )?;
    }
    Ok(out)
}

/// What a Cross emits for its kept left records, which have no keys, and these right ones, in any order. It looks the
/// kept records up once.
pub(crate) fn cross_kept<L: Local>(
    alloc: Global,
    f: &Valid,
    kept: &L,
    rights: &Rows,
) -> Result<Rows, OutOfMemory>
    requires kind { f.now.function.kind ≡ Cross }
    requires sealed { L.is_sealed kept.now ≡ true }
    requires no_keys { L.key_fields kept.now ≡ [] }
    requires left_widths { AreWide f.now.fields (L.rows kept.now) }
    requires right_widths { AreWide f.now.fields rights.now }
    ensures given { IfOk result (IsPermutation (crossed (λ l r. Out f.now.fields f.now.function.body (of_pair l r)) (L.rows kept.now) rights.now)) }
    ensures widths { IfOk result (AreWide f.now.fields) }
{
    if rights.len() == 0 {
        return Ok(Rows::new(alloc));
    }
    let lefts = kept.borrow_group_of(rights.at(0), &Keys::new());
    cross_rows(alloc, f, lefts, rights)
}
