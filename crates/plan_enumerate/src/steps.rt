//! How a listed plan came about.

ghost use Rattle.std.specs.Prelude.{◌<◌, ℕ, length, IfOk};
ghost use Rattle.plan_trees.specs.Plans.{PlanTree};
ghost use Rattle.pact_operators.specs.Programs.{ProgramData};
ghost use Rattle.plan_enumerate.specs.Listing.{IsAt, IsListing};
ghost use Rattle.reorder_pair.specs.ToldExchanges.{Lead};
ghost use Rattle.plan_enumerate.specs.Steps.{AreStepsTo};

use crate::listings::Listed;
use pact_record::OutOfMemory;
use reorder_pair::ConditionList;
use std::alloc::Global;

/// The exchanges that lead from the plan of the first entry to that of the entry with this number, in the order in
/// which they are made. The first entry has none.
pub fn steps_of(alloc: Global, listed: &Listed, entry: u32) -> Result<ConditionList, OutOfMemory>
    requires within { entry < length listed.now.entries }
    ensures steps { IfOk result (AreStepsTo listed.now.entries entry) }
    ensures lead { IfOk result (λ cs. (p : ProgramData) (limit : ℕ) → IsListing p limit listed.now → (t : PlanTree) → IsAt listed.now.entries entry t → Lead p p.plan cs t) }
{
    let entries = listed.entries();
    let mut conditions = Vec::new(alloc);
    let mut at = entry as usize;
    while let Some(by) = entries.at(at).by {
        conditions.push(by)?;
        at = entries.at(at).from as usize;
    }
    // The exchanges were collected on the way back.
    conditions.reverse();
    Ok(ConditionList::of(conditions))
}
