//! Records grouped by key, in a list of groups that is scanned.

ghost use Rattle.std.specs.Prelude.{◌≡◌, ◌<◌, ◌++◌, ◌∷◌, [], true, false, length, map, slice_get, IfOk, IfSome, OnOk};
ghost use Rattle.std.specs.List.Sorted.{IsPermutation};
ghost use Rattle.pact_bag.specs.Groups.{distinct_keys, group_of_key};
ghost use Rattle.pact_record.specs.Record.{key_of};
ghost use Rattle.pact_record.specs.Widths.{AreBelow, AreWide};
ghost use Rattle.local_strategy.specs.Grouped.{order_of, rows_of};

use crate::groups::Groups;
use crate::locals::Local;
use crate::scanning::find;
use pact_bag::Rows;
use pact_record::{Keys, OutOfMemory, Record};
use std::alloc::Global;
use std::marker::Model;

/// Records in a group for each key. Each lookup and each added record scans all groups, so it is slow if there are many
/// keys. It is a baseline for the other implementations, and no command uses it.
#[derive(Drop)]
pub struct ListLocal {
    groups: Groups,
    sealed: bool,
}

impl Model for ListLocal {
    ghost use Rattle.local_strategy.specs.Listed.{ListData};

    ghost Value = { ListData };

    ghost view = { λ l. record { keys = l.groups.keys; groups = l.groups.groups; is_sealed = l.sealed } };
}

impl Local for ListLocal {
    ghost rows = { λ l. rows_of l.groups };

    ghost key_fields = { λ l. l.keys };

    ghost is_sealed = { λ l. l.is_sealed };

    ghost order = { λ l. order_of l.keys l.groups };

    fn start(alloc: Global, keys: &Keys) -> Result<ListLocal, OutOfMemory> {
        Ok(ListLocal {
            groups: Groups::new(alloc, keys),
            sealed: false,
        })
    }

    fn add(&mut self, row: Record) -> Result<(), OutOfMemory> {
        let found = find(&self.groups, &row, self.groups.keys());
        self.groups.put(found, row)
    }

    fn seal(&mut self) -> Result<(), OutOfMemory> {
        self.sealed = true;
        Ok(())
    }

    fn key_count(&self) -> usize {
        self.groups.len()
    }

    fn borrow_group_at(&self, n: usize) -> &Rows {
        self.groups.at(n)
    }

    fn borrow_group_of(&self, row: &Record, keys: &Keys) -> &Rows {
        self.groups.of(find(&self.groups, row, keys))
    }
}
