//! Stores one more row in a table that isn't sealed.

ghost use Rattle.std.specs.Prelude.{◌≡◌, ◌<◌, ◌++◌, ◌∷◌, [], None, get_or, length, slice_set, OnOk};
ghost use Rattle.pact_record.specs.Record.{key_of};
ghost use Rattle.pact_record.specs.Widths.{AreBelow, AreWide};
ghost use Rattle.local_strategy.specs.Grouped.{IsFound, order_of, rows_of};
ghost use Rattle.group_table.specs.Codes.{code};
ghost use Rattle.group_table.specs.Stored.{AreBehind, IsAdded, IsNewGroup};
ghost use Rattle.group_table.specs.Tables.{IsIndex};

use crate::buckets::Buckets;
use crate::codes::row_code;
use crate::finding::find;
use chain_arena::Chains;
use local_strategy::Groups;
use pact_record::{OutOfMemory, Record};

// Appends the row to a list.
fn put_behind(lists: &mut Chains<Record>, n: usize, row: Record) -> Result<(), OutOfMemory>
    requires { n < length lists.old.lists }
    ensures { OnOk result (lists.new.lists ≡ slice_set lists.old.lists n (get_or lists.old.lists n [] ++ row ∷ [])) }
{
    lists.reserve(1)?;
    lists.push_back(n, row);
    Ok(())
}

// Adds the row as the first of a new group, with an empty list for later rows. `hash` is the code of its key values.
fn put_new(
    buckets: &mut Buckets,
    groups: &mut Groups,
    lists: &mut Chains<Record>,
    hash: u64,
    row: Record,
) -> Result<(), OutOfMemory>
    requires index { IsIndex buckets.old (order_of groups.old.keys groups.old.groups) }
    requires found { IsFound (order_of groups.old.keys groups.old.groups) (key_of groups.old.keys row) None }
    requires wide { AreWide (length row) (rows_of groups.old.groups) }
    requires below { AreBelow (length row) groups.old.keys }
    requires hash { hash ≡ code (key_of groups.old.keys row) }
    ensures { OnOk result (IsNewGroup row groups.old lists.old.lists buckets.new groups.new lists.new.lists) }
{
    groups.put(None, row)?;
    buckets.add(hash)?;
    lists.new_chain()?;
    Ok(())
}

/// Stores the row with those of its key. After an out-of-memory error the contents of the three are unspecified.
pub(crate) fn put(
    buckets: &mut Buckets,
    groups: &mut Groups,
    lists: &mut Chains<Record>,
    row: Record,
) -> Result<(), OutOfMemory>
    requires index { IsIndex buckets.old (order_of groups.old.keys groups.old.groups) }
    requires behind { AreBehind groups.old.keys groups.old.groups lists.old.lists }
    requires wide { AreWide (length row) (rows_of groups.old.groups ++ rows_of lists.old.lists) }
    requires below { AreBelow (length row) groups.old.keys }
    ensures { OnOk result (IsAdded row groups.old lists.old.lists buckets.new groups.new lists.new.lists) }
{
    let keys = groups.keys();
    let hash = row_code(&row, keys);
    match find(buckets, groups, hash, &row, keys) {
        Some(n) => put_behind(lists, n, row),
        None => put_new(buckets, groups, lists, hash, row),
    }
}
