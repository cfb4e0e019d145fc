//! Finds the group with the key values of a row by scanning all groups.

ghost use Rattle.std.specs.Prelude.{◌≡◌, ◌<◌, length};
ghost use Rattle.pact_record.specs.Record.{key_of};
ghost use Rattle.pact_record.specs.Widths.{AreBelow};
ghost use Rattle.local_strategy.specs.Grouped.{IsFound, order_of};

use crate::groups::Groups;
use pact_record::{Keys, Record};
use std::cmp::Ordering;

/// The place of the group with the key values that the row has at these fields.
pub(crate) fn find(groups: &Groups, row: &Record, keys: &Keys) -> Option<usize>
    requires length { length keys.now ≡ length groups.now.keys }
    requires below { AreBelow (length row.now) keys.now }
    ensures { IsFound (order_of groups.now.keys groups.now.groups) (key_of keys.now row.now) result }
{
    for n in 0..groups.len() {
        if groups.key_compare(n, row, keys) == Ordering::Equal {
            return Some(n);
        }
    }
    None
}
