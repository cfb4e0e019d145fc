//! Finds the group with the key values of a row by its hash code.

ghost use Rattle.std.specs.Prelude.{◌≡◌, ◌<◌, [], get_or, length};
ghost use Rattle.pact_bag.specs.Groups.{is_same_key};
ghost use Rattle.pact_record.specs.Record.{key_of};
ghost use Rattle.pact_record.specs.Widths.{AreBelow};
ghost use Rattle.local_strategy.specs.Grouped.{IsFound, order_of};
ghost use Rattle.group_table.specs.Codes.{code};
ghost use Rattle.group_table.specs.Tables.{IsIndex};

use crate::buckets::Buckets;
use local_strategy::Groups;
use pact_record::{Keys, Record};

// Whether the group's key values are those that the row has at these fields.
fn has_key(groups: &Groups, n: usize, row: &Record, keys: &Keys) -> bool
    requires number { n < length (order_of groups.now.keys groups.now.groups) }
    requires length { length keys.now ≡ length groups.now.keys }
    requires below { AreBelow (length row.now) keys.now }
    ensures { result ≡ is_same_key (get_or (order_of groups.now.keys groups.now.groups) n []) (key_of keys.now row.now) }
{
    groups.key_compare(n, row, keys).is_eq()
}

/// The place of the group with the key values that the row has at these fields, by their hash code. Only the keys in
/// one bucket are compared. It allocates no memory.
pub(crate) fn find(
    buckets: &Buckets,
    groups: &Groups,
    hash: u64,
    row: &Record,
    keys: &Keys,
) -> Option<usize>
    requires index { IsIndex buckets.now (order_of groups.now.keys groups.now.groups) }
    requires length { length keys.now ≡ length groups.now.keys }
    requires below { AreBelow (length row.now) keys.now }
    requires hash { hash ≡ code (key_of keys.now row.now) }
    ensures { IsFound (order_of groups.now.keys groups.now.groups) (key_of keys.now row.now) result }
{
    let mut at = buckets.head(hash);
    while let Some(n) = at {
        if has_key(groups, n, row, keys) {
            return Some(n);
        }
        at = buckets.next(n);
    }
    None
}
