//! Instances before their start.

ghost use Rattle.std.specs.Prelude.{◌≡◌, ◌≤◌, ◌<◌, [], true, false, length, IfOk};
ghost use Rattle.pact_operators.specs.PlanOps.{is_source_kind, kind_at};
ghost use Rattle.pact_operators.specs.Programs.{IsPlanOf};
ghost use Rattle.pact_record.specs.Widths.{AreWide};
ghost use Rattle.plan_trees.specs.Plans.{has};
ghost use Rattle.flow_instance.specs.Starting.{IsUnstarted};

use crate::parts::Part;
use crate::plan_parts::part_at;
use pact_bag::Rows;
use pact_operators::{Physical, Program};
use pact_record::OutOfMemory;
use std::alloc::Global;

/// The data from which an instance starts: its part of the plan and, for a source, the worker's share of the rows. In a
/// run with threads it can move to another one and start there.
#[derive(Drop)]
pub struct Unstarted {
    pub(crate) part: Part,
    pub(crate) rows: Rows,
}

impl Unstarted {
    /// The data from which the instance of an operator or a source of the plan starts on a worker, with batches of at
    /// most `batch` records. `rows` is the worker's share if it is a source, and otherwise empty. Out of memory is the
    /// only error.
    pub fn new(
        alloc: Global,
        program: &Program,
        physical: &Physical,
        at: u32,
        worker: u32,
        batch: u32,
        rows: Rows,
    ) -> Result<Unstarted, OutOfMemory>
        requires plan { IsPlanOf program.now.functions program.now.ops physical.now.tree }
        requires has { has at physical.now.tree ≡ true }
        requires worker { worker < physical.now.workers }
        requires some { 1 ≤ batch }
        requires widths { AreWide program.now.fields rows }
        requires no_rows { is_source_kind (kind_at program.now.ops at) ≡ false → rows ≡ [] }
        ensures { IfOk result (IsUnstarted program.now physical.now at worker batch rows) }
    {
        let part = part_at(alloc, program, physical, at, worker, batch)?;
        Ok(Unstarted { part, rows })
    }

    /// The number of its own rows: those of a source's share, and 0 for an operator.
    pub fn share_len(&self) -> usize
        ensures { result ≡ length self.now.rows }
    {
        self.rows.len()
    }
}
