//! Cuts sorted records into groups.

ghost use Rattle.std.specs.Prelude.{◌≡◌, length, IfOk};
ghost use Rattle.pact_bag.specs.Rows.{HaveOneWidth};
ghost use Rattle.pact_record.specs.Record.{key_of};
ghost use Rattle.pact_record.specs.Widths.{AreBelow};
ghost use Rattle.local_strategy.specs.Grouped.{AreAllBelow, IsFound, order_of, order_with};
ghost use Rattle.sort_local.specs.Cut.{AreAtMost, IsAscending, IsFalling, IsSortedInto};

use crate::key_orders::sort_down;
use local_strategy::Groups;
use pact_bag::Rows;
use pact_record::{Keys, OutOfMemory, Record};
use std::alloc::Global;
use std::cmp::Ordering;

// The last group, if the row has its key.
fn last_like(groups: &Groups, row: &Record) -> Option<usize>
    requires below { AreBelow (length row.now) groups.now.keys }
    requires ascending { IsAscending (order_of groups.now.keys groups.now.groups) }
    requires under { AreAtMost (order_of groups.now.keys groups.now.groups) (key_of groups.now.keys row.now) }
    ensures found { IsFound (order_of groups.now.keys groups.now.groups) (key_of groups.now.keys row.now) result }
    ensures ascending { IsAscending (order_with (order_of groups.now.keys groups.now.groups) (key_of groups.now.keys row.now) result) }
{
    let count = groups.len();
    if count == 0 {
        return None;
    }
    if groups.key_compare(count - 1, row, groups.keys()) == Ordering::Equal {
        return Some(count - 1);
    }
    None
}

// The groups of rows in falling order.
fn cut(alloc: Global, keys: &Keys, mut rows: Vec<Record>) -> Result<Groups, OutOfMemory>
    requires below { AreAllBelow keys.now rows.items }
    requires width { HaveOneWidth rows.items }
    requires falling { IsFalling keys.now rows.items }
    ensures { IfOk result (λ groups. IsSortedInto keys.now rows.items groups) }
{
    let mut groups = Groups::new(alloc, keys);
    while let Some(row) = rows.pop() {
        let found = last_like(&groups, &row);
        groups.put(found, row)?;
    }
    Ok(groups)
}

/// The groups of the rows, by ascending keys.
pub(crate) fn sorted_groups(alloc: Global, keys: &Keys, rows: Rows) -> Result<Groups, OutOfMemory>
    requires { AreAllBelow keys.now rows }
    ensures { IfOk result (λ groups. IsSortedInto keys.now rows groups) }
{
    let _width = rows.rows();
    let sorted = sort_down(alloc, keys, rows)?;
    cut(alloc, keys, sorted)
}
