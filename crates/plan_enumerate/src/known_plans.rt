//! What is known of the operators of listed plans.

ghost use Rattle.std.specs.Prelude.{◌≡◌, ◌<◌, ◌++◌, ◌∷◌, [], OnOk, Some, length, slice_get};

use pact_record::OutOfMemory;
use ship_strategy::Table;
use std::alloc::Global;
use std::marker::Model;

/// What is known of the operators of each listed plan, in the order of the list. A caller that chooses among the plans
/// repeatedly has their operators analysed only once.
#[derive(Drop)]
pub struct KnownPlans {
    // A table takes about 4 KB. They are boxed so that the list grows without moving them.
    tables: Vec<Box<Table>>,
}

impl Model for KnownPlans {
    ghost use Rattle.std.specs.Prelude.{List, map};
    ghost use Rattle.std.specs.Coded.{coded_list};
    ghost use Rattle.ship_strategy.specs.contracts.tables.Table as table;
    ghost use Rattle.ship_strategy.specs.declared.tables.Table.{Table};

    ghost Value = { List Table };

    ghost coded = { coded_list table.the_row.coded };

    ghost view = { λ k. map (λ b. b.value) k.tables.items };
}

impl KnownPlans {
    pub(crate) fn new(alloc: Global) -> KnownPlans
        ensures { result ≡ [] }
    {
        KnownPlans {
            tables: Vec::new(alloc),
        }
    }

    // Adds the table of the next plan.
    pub(crate) fn push(&mut self, alloc: Global, table: &Table) -> Result<(), OutOfMemory>
        ensures { OnOk result (self.new ≡ self.old ++ table.now ∷ []) }
    {
        self.tables.push(Box::new(alloc, *table)?)?;
        Ok(())
    }

    /// What is known of the operators of the plan of this entry.
    pub fn table(&self, entry: usize) -> &Table
        requires { entry < length self.now }
        ensures { slice_get self.now entry ≡ Some result.now }
    {
        &self.tables[entry]
    }
}
