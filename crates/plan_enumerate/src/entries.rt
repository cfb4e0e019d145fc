//! Lists of different plans, each with the exchange that led to it.

ghost use Rattle.std.specs.Prelude.{◌≡◌, ◌≤◌, ◌<◌, ◌↔◌, ◌++◌, ◌∷◌, [], length, slice_get, Some, OnOk, IfOk, IsTrue};
ghost use Rattle.plan_enumerate.specs.Listing.{IsListed, first_entry};
ghost use Rattle.plan_enumerate.specs.Walks.{Adds};

use indexmap::IndexMap;
use pact_operators::Plan;
use pact_record::OutOfMemory;
use reorder_pair::Condition;
use std::alloc::Global;
use std::marker::Model;

/// A listed plan and where it comes from.
#[derive(Clone, Copy, Debug)]
pub struct Entry {
    pub plan: Plan,
    /// The number of the entry that it comes from; entries are numbered from 0. For the plan as written it is 0 too,
    /// and means nothing.
    pub from: u32,
    /// The exchange of that entry's plan which yields this one; none for the plan as written.
    pub by: Option<Condition>,
}

/// Where a plan comes from.
#[derive(Clone, Copy, Drop)]
struct Origin {
    from: u32,
    by: Option<Condition>,
}

/// Entries in their order. No two entries have the same plan, and a table finds an entry by its plan.
#[derive(Drop)]
pub struct Entries {
    origins: IndexMap<Plan, Origin>,
}

impl Model for Entries {
    ghost use Rattle.std.specs.Prelude.{List};
    ghost use Rattle.std.specs.Coded.{coded_list};
    ghost use Rattle.plan_enumerate.specs.EntryTable.{entries_of};
    ghost use Rattle.plan_enumerate.specs.contracts.entries.Entry as entry;
    ghost use Rattle.plan_enumerate.specs.declared.entries.Entry.{Entry};

    ghost Value = { List Entry };

    ghost coded = { coded_list entry.the_row.coded };

    ghost view = { λ s. entries_of s.origins.entries };
}

impl Entries {
    // A list of one plan, to which no exchange led.
    pub(crate) fn of(alloc: Global, plan: Plan) -> Result<Entries, OutOfMemory>
        ensures { IfOk result (λ entries. entries ≡ first_entry plan ∷ []) }
    {
        let mut origins = IndexMap::new(alloc);
        origins.insert(plan, Origin { from: 0, by: None })?;
        Ok(Entries { origins })
    }

    pub fn len(&self) -> usize
        ensures { result ≡ length self.now }
    {
        self.origins.len()
    }

    /// The entry of a number.
    pub fn at(&self, n: usize) -> Entry
        requires { n < length self.now }
        ensures { slice_get self.now n ≡ Some result }
    {
        let (plan, origin) = self.origins.get_index(n).unwrap();
        Entry {
            plan: *plan,
            from: origin.from,
            by: origin.by,
        }
    }

    /// Whether some entry has the plan.
    pub fn contains(&self, plan: &Plan) -> bool
        ensures { IsTrue result ↔ IsListed plan.now self.now }
    {
        self.origins.contains_key(plan)
    }

    // Adds the entry if its plan isn't listed yet; returns false if there is no room for it.
    pub(crate) fn add(&mut self, entry: Entry, limit: u32) -> Result<bool, OutOfMemory>
        requires room { length self.old ≤ limit }
        ensures { IfOk result (Adds limit entry self.old self.new) }
    {
        if self.contains(&entry.plan) {
            return Ok(true);
        }
        if self.len() == limit as usize {
            return Ok(false);
        }
        self.push(entry)?;
        Ok(true)
    }

    // Appends an entry whose plan isn't listed.
    fn push(&mut self, entry: Entry) -> Result<(), OutOfMemory>
        requires { IsListed entry.plan self.old → ⊥ }
        ensures { OnOk result (self.new ≡ self.old ++ entry ∷ []) }
    {
        let origin = Origin {
            from: entry.from,
            by: entry.by,
        };
        self.origins.insert(entry.plan, origin)?;
        Ok(())
    }
}
