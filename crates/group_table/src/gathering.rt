//! Moves the records of lists to their groups.

ghost use Rattle.std.specs.Prelude.{◌≡◌, ◌<◌, [], length, slice_set, OnOk};
ghost use Rattle.local_strategy.specs.Grouped.{order_of, rows_of};
ghost use Rattle.group_table.specs.Stored.{AreBehind, AreMoved};

use chain_arena::Chains;
use local_strategy::Groups;
use pact_record::{OutOfMemory, Record};

// The memory that a group gets with its first record has room for this number of records.
const FIRST_ROOM: usize = 4;

// Makes room in a group for the records of its list, unless they fit beside its first record.
fn make_room(groups: &mut Groups, n: usize, more: usize) -> Result<(), OutOfMemory>
    requires { n < length (order_of groups.old.keys groups.old.groups) }
    ensures { groups.new ≡ groups.old }
{
    if more < FIRST_ROOM {
        return Ok(());
    }
    groups.reserve(n, more)
}

// Moves the records of one list to the group with its number.
fn gather_list(groups: &mut Groups, lists: &mut Chains<Record>, n: usize) -> Result<(), OutOfMemory>
    requires behind { AreBehind groups.old.keys groups.old.groups lists.old.lists }
    requires number { n < length lists.old.lists }
    ensures moved { OnOk result (AreMoved groups.old lists.old.lists groups.new lists.new.lists) }
    ensures emptied { OnOk result (lists.new.lists ≡ slice_set lists.old.lists n []) }
{
    make_room(groups, n, lists.items(n))?;
    while lists.items(n) > 0 {
        let row = lists.take_first(n);
        groups.put(Some(n), row)?;
    }
    Ok(())
}

/// Moves the records of all lists to the groups with their numbers. After an out-of-memory error some of them may be
/// lost.
pub(crate) fn gather(groups: &mut Groups, lists: &mut Chains<Record>) -> Result<(), OutOfMemory>
    requires { AreBehind groups.old.keys groups.old.groups lists.old.lists }
    ensures moved { OnOk result (AreMoved groups.old lists.old.lists groups.new lists.new.lists) }
    ensures emptied { OnOk result (rows_of lists.new.lists ≡ []) }
{
    for n in 0..lists.count() {
        gather_list(groups, lists, n)?;
    }
    Ok(())
}
