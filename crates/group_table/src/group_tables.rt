//! Records by key, in groups that are found by hashing.

ghost use Rattle.std.specs.Prelude.{◌≡◌, ◌<◌, ◌++◌, ◌∷◌, [], true, false, length, map, slice_get, IfOk, IfSome, OnOk};
ghost use Rattle.std.specs.List.Sorted.{IsPermutation};
ghost use Rattle.pact_bag.specs.Groups.{distinct_keys, group_of_key};
ghost use Rattle.pact_record.specs.Record.{key_of};
ghost use Rattle.pact_record.specs.Widths.{AreBelow, AreWide};
ghost use Rattle.local_strategy.specs.Grouped.{order_of};
ghost use Rattle.group_table.specs.Stored.{held};
ghost use Rattle.group_table.specs.Tables.{IsIndex};

use crate::buckets::Buckets;
use crate::codes::row_code;
use crate::finding::find;
use crate::gathering::gather;
use crate::storing::put;
use chain_arena::Chains;
use local_strategy::{Groups, Local};
use pact_bag::Rows;
use pact_record::{Keys, OutOfMemory, Record};
use std::alloc::Global;
use std::marker::Model;

// Starts again without records. After an out-of-memory error the three may not fit together.
fn clear(alloc: Global, buckets: &mut Buckets, groups: &mut Groups, lists: &mut Chains<Record>)
    ensures index { IsIndex buckets.new [] }
    ensures groups { groups.new.groups ≡ [] }
    ensures lists { lists.new.lists ≡ [] }
{
    let keys = *groups.keys();
    *buckets = Buckets::new(alloc);
    *groups = Groups::new(alloc, &keys);
    *lists = Chains::new(alloc);
}

/// Records in a group for each key, which is found by its hash code.
#[derive(Drop)]
pub struct GroupTable {
    alloc: Global,
    buckets: Buckets,
    groups: Groups,
    // by the groups' numbers: the records after the first one, until it is sealed
    lists: Chains<Record>,
    sealed: bool,
}

impl Model for GroupTable {
    ghost use Rattle.group_table.specs.Stored.{TableData, IsStored};

    ghost Value = { TableData };

    ghost view = { λ t. record { keys = t.groups.keys; groups = t.groups.groups; lists = t.lists.lists; is_sealed = t.sealed } };

    ghost invariant = { λ t. IsStored t.buckets t.groups t.lists.lists t.sealed };
}

impl Local for GroupTable {
    ghost rows = { λ t. held t.is_sealed t.groups t.lists };

    ghost key_fields = { λ t. t.keys };

    ghost is_sealed = { λ t. t.is_sealed };

    ghost order = { λ t. order_of t.keys t.groups };

    fn start(alloc: Global, keys: &Keys) -> Result<GroupTable, OutOfMemory> {
        Ok(GroupTable {
            alloc,
            buckets: Buckets::new(alloc),
            groups: Groups::new(alloc, keys),
            lists: Chains::new(alloc),
            sealed: false,
        })
    }

    fn add(&mut self, row: Record) -> Result<(), OutOfMemory> {
        match put(&mut self.buckets, &mut self.groups, &mut self.lists, row) {
            Ok(()) => Ok(()),
            Err(error) => {
                clear(
                    self.alloc,
                    &mut self.buckets,
                    &mut self.groups,
                    &mut self.lists,
                );
                Err(error)
            }
        }
    }

    fn seal(&mut self) -> Result<(), OutOfMemory> {
        match gather(&mut self.groups, &mut self.lists) {
            Ok(()) => {
                // free the lists, which aren't needed any more
                self.lists = Chains::new(self.alloc);
                self.sealed = true;
                Ok(())
            }
            Err(error) => {
                clear(
                    self.alloc,
                    &mut self.buckets,
                    &mut self.groups,
                    &mut self.lists,
                );
                Err(error)
            }
        }
    }

    fn key_count(&self) -> usize {
        self.groups.len()
    }

    fn borrow_group_at(&self, n: usize) -> &Rows {
        self.groups.at(n)
    }

    fn borrow_group_of(&self, row: &Record, keys: &Keys) -> &Rows {
        let hash = row_code(row, keys);
        let found = find(&self.buckets, &self.groups, hash, row, keys);
        self.groups.of(found)
    }
}
