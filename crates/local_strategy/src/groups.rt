//! Groups of records, each with the records of one key.

ghost use Rattle.std.specs.Prelude.{◌≡◌, ◌<◌, ◌++◌, ◌∷◌, [], ℕ, List, get_or, length, map, slice_get, slice_set, IfOk, IfSome, OnErr, OnOk};
ghost use Rattle.std.specs.List.{AllByRecursion};
ghost use Rattle.std.specs.List.Sorted.{IsPermutation};
ghost use Rattle.pact_bag.specs.Groups.{distinct_keys, group_of_key};
ghost use Rattle.pact_record.specs.declared.values.Value.{Value as FieldValue};
ghost use Rattle.pact_record.specs.Record.{key_of, record_cmp};
ghost use Rattle.pact_record.specs.Widths.{AreBelow, AreWide};
ghost use Rattle.local_strategy.specs.Grouped.{AreGroups, IsFound, IsPut, order_of, order_with, rows_of};

use pact_bag::Rows;
use pact_record::{Keys, OutOfMemory, Record};
use std::alloc::Global;
use std::cmp::Ordering;
use std::marker::Model;

// Appends the row to its group.
fn put_behind(groups: &mut Vec<Rows>, n: usize, row: Record) -> Result<(), OutOfMemory>
    requires number { n < length groups.old.items }
    requires wide { AllByRecursion (λ held. length held ≡ length row) (get_or groups.old.items n []) }
    ensures ok { OnOk result (groups.new.items ≡ slice_set groups.old.items n (get_or groups.old.items n [] ++ row ∷ [])) }
    ensures err { OnErr result (groups.new.items ≡ groups.old.items) }
{
    groups[n].push(row)?;
    Ok(())
}

// A list of one row.
fn alone(alloc: Global, row: Record) -> Result<Rows, OutOfMemory>
    ensures { IfOk result (λ rows. rows ≡ row ∷ []) }
{
    let mut rows = Rows::new(alloc);
    rows.push(row)?;
    Ok(rows)
}

// Adds the row as a new group.
fn put_new(alloc: Global, groups: &mut Vec<Rows>, row: Record) -> Result<(), OutOfMemory>
    ensures ok { OnOk result (groups.new.items ≡ groups.old.items ++ (row ∷ []) ∷ []) }
    ensures err { OnErr result (groups.new.items ≡ groups.old.items) }
{
    let rows = alone(alloc, row)?;
    groups.push(rows)?;
    Ok(())
}

// Adds the row to the group of its key, which may be a new one.
fn put(
    alloc: Global,
    keys: &Keys,
    groups: &mut Vec<Rows>,
    found: Option<usize>,
    row: Record,
) -> Result<(), OutOfMemory>
    requires groups { AreGroups keys.now groups.old.items }
    requires found { IsFound (order_of keys.now groups.old.items) (key_of keys.now row) found }
    requires wide { AreWide (length row) (rows_of groups.old.items) }
    ensures ok { OnOk result (IsPut keys.now row found groups.old.items groups.new.items) }
    ensures err { OnErr result (groups.new.items ≡ groups.old.items) }
{
    match found {
        Some(n) => put_behind(groups, n, row),
        None => put_new(alloc, groups, row),
    }
}

// Moves the rows to memory with room for `more` further rows.
fn make_room(alloc: Global, rows: &mut Rows, more: usize) -> Result<(), OutOfMemory>
    ensures { rows.new ≡ rows.old }
{
    let all = rows.rows().len().saturating_add(more);
    let mut roomy = Rows::with_capacity(alloc, all)?;
    roomy.append(rows)?;
    *rows = roomy;
    Ok(())
}

// Makes room for more rows of one group.
fn reserve(alloc: Global, groups: &mut Vec<Rows>, n: usize, more: usize) -> Result<(), OutOfMemory>
    requires { n < length groups.old.items }
    ensures { groups.new.items ≡ groups.old.items }
{
    make_room(alloc, &mut groups[n], more)
}

/// Records in a group for each key. The groups are numbered in the order in which their keys came.
#[derive(Drop)]
pub struct Groups {
    alloc: Global,
    keys: Keys,
    held: Vec<Rows>,
    none: Rows,
}

impl Model for Groups {
    ghost use Rattle.local_strategy.specs.Grouped.{GroupsData, AreHeld};

    ghost Value = { GroupsData };

    ghost view = { λ g. record { keys = g.keys; groups = g.held.items } };

    ghost invariant = { λ g. AreHeld g.keys g.held.items g.none };
}

impl Groups {
    /// No groups yet; they will be by these key fields.
    pub fn new(alloc: Global, keys: &Keys) -> Groups
        ensures keys { result.keys ≡ keys.now }
        ensures none { result.groups ≡ [] }
    {
        Groups {
            alloc,
            keys: *keys,
            held: Vec::new(alloc),
            none: Rows::new(alloc),
        }
    }

    pub fn keys(&self) -> &Keys
        ensures { result.now ≡ self.now.keys }
    {
        &self.keys
    }

    /// The number of different keys of the records.
    pub fn len(&self) -> usize
        ensures count { result ≡ length (order_of self.now.keys self.now.groups) }
        ensures order { IsPermutation (distinct_keys (map (key_of self.now.keys) (rows_of self.now.groups))) (order_of self.now.keys self.now.groups) }
    {
        self.held.len()
    }

    /// Compares the key of a group with that of a row.
    pub fn key_compare(&self, n: usize, row: &Record, keys: &Keys) -> Ordering
        requires number { n < length (order_of self.now.keys self.now.groups) }
        requires length { length keys.now ≡ length self.now.keys }
        requires below { AreBelow (length row.now) keys.now }
        ensures { result ≡ record_cmp (get_or (order_of self.now.keys self.now.groups) n []) (key_of keys.now row.now) }
    {
        self.held[n].at(0).key_compare(&self.keys, row, keys)
    }

    /// The records of the key with this number.
    pub fn at(&self, n: usize) -> &Rows
        requires { n < length (order_of self.now.keys self.now.groups) }
        ensures { IfSome (slice_get (order_of self.now.keys self.now.groups) n) (λ key. group_of_key self.now.keys (rows_of self.now.groups) key ≡ result.now) }
    {
        &self.held[n]
    }

    /// The records of the key that was found there, and no records if it wasn't found.
    pub fn of(&self, found: Option<usize>) -> &Rows
        requires { (key : List FieldValue) × IsFound (order_of self.now.keys self.now.groups) key found }
        ensures { (key : List FieldValue) → IsFound (order_of self.now.keys self.now.groups) key found → group_of_key self.now.keys (rows_of self.now.groups) key ≡ result.now }
    {
        match found {
            Some(n) => &self.held[n],
            None => &self.none,
        }
    }

    /// Makes room for `more` further rows of the key with this number.
    pub fn reserve(&mut self, n: usize, more: usize) -> Result<(), OutOfMemory>
        requires { n < length (order_of self.old.keys self.old.groups) }
        ensures { self.new ≡ self.old }
    {
        reserve(self.alloc, &mut self.held, n, more)
    }

    /// Appends a row to the group of its key, if the key was found there, and adds it as a new last group otherwise.
    pub fn put(&mut self, found: Option<usize>, row: Record) -> Result<(), OutOfMemory>
        requires found { IsFound (order_of self.old.keys self.old.groups) (key_of self.old.keys row) found }
        requires wide { AreWide (length row) (rows_of self.old.groups) }
        requires below { AreBelow (length row) self.old.keys }
        ensures keys { self.new.keys ≡ self.old.keys }
        ensures order { OnOk result (order_of self.new.keys self.new.groups ≡ order_with (order_of self.old.keys self.old.groups) (key_of self.old.keys row) found) }
        ensures rows { OnOk result (IsPermutation (rows_of self.old.groups ++ row ∷ []) (rows_of self.new.groups)) }
        ensures err { OnErr result (self.new.groups ≡ self.old.groups) }
    {
        put(self.alloc, &self.keys, &mut self.held, found, row)
    }
}
