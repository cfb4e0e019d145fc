//! Worlds from what a run has left.

ghost use Rattle.std.specs.Prelude.{◌≡◌, ◌≤◌, ◌∷◌, [], ℕ, length, IfOk, OnOk};
ghost use Rattle.std.specs.List.{AllByRecursion};
ghost use Rattle.pact_operators.specs.Programs.{IsPlanOf};
ghost use Rattle.flow_instance.specs.Limits.{batch_limit};
ghost use Rattle.flow_instance.specs.Spots.{Setting};
ghost use Rattle.flow_instance.specs.Worlds.{History, Stands};
ghost use Rattle.flow_core.specs.Laws.{ObeysLaws};
ghost use Rattle.flow_core.specs.Left.{AreFilled, AreOfPlan, IsPipeOf, LeftOn, StandForSome, instance_of, left_world};
ghost use Rattle.flow_core.specs.Worlds.{IsStanding, IsWhole, StandsForSome, depth_limit, instance_in, seen};

use crate::instance_lists::InstanceList;
use crate::note_lists::{NoteList, NoteLists};
use crate::plan_tables::PlanTables;
use crate::queued_instances::queue_all;
use crate::worlds::World;
use local_strategy::Local;
use pact_operators::{Physical, Program};
use pact_record::OutOfMemory;
use std::alloc::Global;

// Appends the notes that are left on a pipe to it.
fn refill<L: Local>(world: &mut World<L>, left: NoteList) -> Result<(), OutOfMemory>
    requires whole { IsWhole world.old.physical world.old.queued_instances }
    requires pipe { IsPipeOf world.old.physical left.pipe }
    ensures filled { OnOk result (AreFilled world.old.physical world.old.queued_instances (left ∷ []) world.new.queued_instances) }
    ensures physical { world.new.physical ≡ world.old.physical }
    ensures depth { world.new.depth ≡ world.old.depth }
{
    let NoteList { pipe, notes } = left;
    world.queued_instances[pipe.edge as usize].held[pipe.from as usize].refill(pipe.to, notes)
}

// Appends the notes that are left on all pipes to them.
fn refill_all<L: Local>(world: &mut World<L>, lists: NoteLists) -> Result<(), OutOfMemory>
    requires whole { IsWhole world.old.physical world.old.queued_instances }
    requires pipes { AllByRecursion (λ (l : LeftOn). IsPipeOf world.old.physical l.pipe) lists }
    ensures filled { OnOk result (AreFilled world.old.physical world.old.queued_instances lists world.new.queued_instances) }
    ensures physical { world.new.physical ≡ world.old.physical }
    ensures depth { world.new.depth ≡ world.old.depth }
{
    for left in lists.lists {
        refill(world, left)?;
    }
    Ok(())
}

impl<L: Local> World<L> {
    /// The world of the instances and of the notes on pipes that a run has left. It represents each history that they
    /// represent. Each instance keeps the batch size with which it was started. A pipe may have more notes left than
    /// `depth`; no note is put there until it has fewer. After an out-of-memory error the instances and the notes are
    /// gone.
    pub fn resume(
        alloc: Global,
        program: &Program,
        physical: &Physical,
        instances: InstanceList<L>,
        notes: NoteLists,
        _batch: u32,
        depth: u32,
    ) -> Result<World<L>, OutOfMemory>
        requires plan { IsPlanOf program.now.functions program.now.ops physical.now.tree }
        requires of_plan { AreOfPlan physical.now instances notes }
        requires stand { StandForSome program.now physical.now instances notes }
        requires batch { (1 ≤ _batch) × (_batch ≤ batch_limit) }
        requires depth { (1 ≤ depth) × (depth ≤ depth_limit) }
        ensures same { IfOk result (λ w. seen w ≡ left_world instances notes) }
        ensures standing { IfOk result (λ w. (g : Setting) (h : History) → g.physical ≡ physical.now → Stands g (left_world instances notes) h → IsStanding g w h) }
        ensures stands { IfOk result StandsForSome }
        ensures laws { IfOk result ObeysLaws }
        ensures physical { IfOk result (λ w. w.physical ≡ physical.now) }
        ensures depth { IfOk result (λ w. w.depth ≡ depth) }
        ensures batch { IfOk result (λ w. (at worker : ℕ) → (instance_in w.queued_instances at worker).part.batch ≡ (instance_of instances at worker).part.batch) }
    {
        // `fields` makes it known that this is a program, and `workers` that this is a physical plan.
        let (_fields, workers) = (program.fields(), physical.workers());
        let queued_instances = queue_all(alloc, workers, instances)?;
        let mut world = World {
            alloc,
            tables: PlanTables::new(physical),
            depth,
            queued_instances,
        };
        refill_all(&mut world, notes)?;
        Ok(world)
    }
}
