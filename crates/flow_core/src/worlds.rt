//! Worlds: all instances of a plan, with the notes on the pipes between them.

ghost use Rattle.std.specs.Prelude.{◌≡◌, ◌<◌, ◌≤◌, ℕ, true, List, length, map, IfNone, IfOk, IfSome, OnOk};
ghost use Rattle.pact_operators.specs.Inputs.{AreInputsOf};
ghost use Rattle.pact_operators.specs.Programs.{IsPlanOf};
ghost use Rattle.plan_trees.specs.Plans.{has};
ghost use Rattle.flow_instance.specs.Limits.{batch_limit};
ghost use Rattle.flow_instance.specs.declared.notes.Event.TheVariants as events;
ghost use Rattle.flow_instance.specs.declared.notes.Want.TheVariants as wants;
ghost use Rattle.flow_instance.specs.declared.notes.Note.{Note as NoteData};
ghost use Rattle.flow_instance.specs.Events.{Ends, KeepsDepth, ListChanged, OthersSame, Puts, Steps, Takes, first_note, no_history, noted};
ghost use Rattle.flow_instance.specs.Instances.{want};
ghost use Rattle.flow_instance.specs.Local.{IsLocal};
ghost use Rattle.flow_instance.specs.Spots.{Setting, Spot, setting};
ghost use Rattle.flow_instance.specs.Steps.{Took, later};
ghost use Rattle.flow_core.specs.QueuedInstances.{IsReadyFor, total_given};
ghost use Rattle.flow_instance.specs.Worlds.{History, does_want, enabled};
ghost use Rattle.flow_core.specs.Outcomes.{IsOutcome};
ghost use Rattle.flow_core.specs.Laws.{ObeysLaws};
ghost use Rattle.flow_core.specs.Worlds.{HasBatchSize, IsStanding, IsWhole, StandsForSome, depth_limit, instance_in, no_queued_instance, queue_in, seen, queued_instance_in};

use crate::plan_tables::PlanTables;
use crate::queued_instances::{QueuedInstance, QueuedInstances, queue_all};
use crate::starting::start_instances;
use flow_instance::{Event, Note, PipeId, Want};
use local_strategy::Local;
use pact_bag::{Counts, Inputs, Outcome};
use pact_operators::{Physical, Program};
use pact_record::OutOfMemory;
use std::alloc::Global;
use std::marker::Model;

/// The instances of a physical plan, and the notes on the pipes between them.
#[derive(Drop)]
pub struct World<L: Local> {
    pub(crate) alloc: Global,
    pub(crate) tables: PlanTables,
    pub(crate) depth: u32,
    pub(crate) queued_instances: Vec<QueuedInstances<L>>,
}

impl<L: Local> Model for World<L> {
    ghost use Rattle.flow_core.specs.Worlds.{WorldData};
    ghost use Rattle.flow_core.specs.WorldCode.{coded_world};

    ghost Value = { WorldData };

    ghost coded = { coded_world };

    ghost view = { λ w. record { physical = w.tables; depth = w.depth; queued_instances = w.queued_instances.items } };
}

// How many records each source and operator emitted.
fn counts_of<L: Local>(alloc: Global, ops: &[QueuedInstances<L>]) -> Result<Counts, OutOfMemory>
    ensures { IfOk result (λ counts. counts ≡ map total_given ops.now) }
{
    let mut counts = Counts::new(alloc);
    for op in ops {
        counts.push(op.given())?;
    }
    Ok(counts)
}

// Whether two wants are equal.
fn does_want(a: Want, b: Want) -> bool
    ensures { result ≡ does_want a b }
{
    match (a, b) {
        (Want::Take(x), Want::Take(y)) => x == y,
        (Want::Put(x), Want::Put(y)) => x == y,
        (Want::End, Want::End) => true,
        (Want::Done, Want::Done) => true,
        _ => false,
    }
}

impl<L: Local> World<L> {
    /// A world of the plan's instances at their start, with empty pipes that hold at most `depth` notes each. An
    /// instance emits batches of at most `batch` records. The caller gives the rows of the sources away: each row moves
    /// to its worker.
    pub fn start_owned(
        alloc: Global,
        program: &Program,
        physical: &Physical,
        inputs: Inputs,
        batch: u32,
        depth: u32,
    ) -> Result<World<L>, OutOfMemory>
        requires plan { IsPlanOf program.now.functions program.now.ops physical.now.tree }
        requires inputs { AreInputsOf program.now inputs }
        requires batch { (1 ≤ batch) × (batch ≤ batch_limit) }
        requires depth { (1 ≤ depth) × (depth ≤ depth_limit) }
        ensures standing { IfOk result (λ w. IsStanding (setting program.now inputs physical.now) w no_history) }
        ensures stands { IfOk result StandsForSome }
        ensures laws { IfOk result ObeysLaws }
        ensures physical { IfOk result (λ w. w.physical ≡ physical.now) }
        ensures depth { IfOk result (λ w. w.depth ≡ depth) }
        ensures batch { IfOk result (λ w. HasBatchSize w batch) }
    {
        // `fields` makes it known that this is a program, and `workers` that this is a physical plan.
        let (_fields, workers) = (program.fields(), physical.workers());
        let instances = start_instances(alloc, program, physical, inputs, batch)?;
        let queued_instances = queue_all(alloc, workers, instances)?;
        Ok(World {
            alloc,
            tables: PlanTables::new(physical),
            depth,
            queued_instances,
        })
    }

    /// Like `start_owned`, but the rows are lent, and each is copied once.
    pub fn start(
        alloc: Global,
        program: &Program,
        physical: &Physical,
        inputs: &Inputs,
        batch: u32,
        depth: u32,
    ) -> Result<World<L>, OutOfMemory>
        requires plan { IsPlanOf program.now.functions program.now.ops physical.now.tree }
        requires inputs { AreInputsOf program.now inputs.now }
        requires batch { (1 ≤ batch) × (batch ≤ batch_limit) }
        requires depth { (1 ≤ depth) × (depth ≤ depth_limit) }
        ensures standing { IfOk result (λ w. IsStanding (setting program.now inputs.now physical.now) w no_history) }
        ensures stands { IfOk result StandsForSome }
        ensures laws { IfOk result ObeysLaws }
        ensures physical { IfOk result (λ w. w.physical ≡ physical.now) }
        ensures depth { IfOk result (λ w. w.depth ≡ depth) }
        ensures batch { IfOk result (λ w. HasBatchSize w batch) }
    {
        World::start_owned(alloc, program, physical, inputs.copy(alloc)?, batch, depth)
    }

    // The queued instance of a source or operator on a worker, if there is one.
    fn queued_instance(&self, at: u32, worker: u32) -> Option<&QueuedInstance<L>>
        ensures some { IfSome result (λ queued_instance. queued_instance.now ≡ queued_instance_in self.now.queued_instances at worker) }
        ensures none { IfNone result (queued_instance_in self.now.queued_instances at worker ≡ no_queued_instance) }
    {
        let own = self.queued_instances.get(at as usize)?;
        own.held.get(worker as usize)
    }

    // What an instance wants. An instance that doesn't exist wants nothing.
    pub(crate) fn want(&self, at: u32, worker: u32) -> Want
        ensures { result ≡ want (instance_in self.now.queued_instances at worker) }
    {
        match self.queued_instance(at, worker) {
            Some(queued_instance) => queued_instance.instance.want(),
            None => Want::Done,
        }
    }

    // How many notes are on a pipe.
    pub(crate) fn queued(&self, pipe: PipeId) -> usize
        ensures { result ≡ length (queue_in self.now.queued_instances pipe.edge pipe.from pipe.to) }
    {
        match self.queued_instance(pipe.edge, pipe.from) {
            Some(queued_instance) => queued_instance.queued(pipe.to),
            None => 0,
        }
    }

    fn can_put(&self, pipe: PipeId) -> bool
        ensures { result ≡ enabled self.now.physical self.now.depth (seen self.now) (events.Put pipe) }
    {
        self.tables.has(pipe.edge, pipe.from)
            && does_want(self.want(pipe.edge, pipe.from), Want::Put(pipe.to))
            && self.queued(pipe) < self.depth as usize
    }

    fn can_take(&self, pipe: PipeId) -> bool
        ensures { result ≡ enabled self.now.physical self.now.depth (seen self.now) (events.Take pipe) }
    {
        let workers = self.tables.workers();
        if pipe.from >= workers || pipe.to >= workers {
            return false;
        }
        let Some((at, port)) = self.tables.reader(pipe.edge) else {
            return false;
        };
        does_want(self.want(at, pipe.to), Want::Take(port)) && self.queued(pipe) > 0
    }

    /// Whether the event can happen. A note can be put if its sender wants that and the pipe holds fewer notes than the
    /// depth. A note can be taken if the receiver wants to take at the port and the pipe holds a note. An instance can
    /// end if it wants to. No event can happen at instances or pipes that the plan doesn't have.
    pub fn enabled(&self, event: Event) -> bool
        ensures { result ≡ enabled self.now.physical self.now.depth (seen self.now) event }
    {
        match event {
            Event::Put(pipe) => self.can_put(pipe),
            Event::Take(pipe) => self.can_take(pipe),
            Event::End { at, worker } => {
                self.tables.has(at, worker) && does_want(self.want(at, worker), Want::End)
            }
        }
    }

    // Moves the note that the sender wants to put to the pipe.
    fn put(&mut self, pipe: PipeId) -> Result<(), OutOfMemory>
        requires wanted { want (instance_in self.old.queued_instances pipe.edge pipe.from) ≡ wants.Put pipe.to }
        requires whole { IsWhole self.old.physical self.old.queued_instances }
        requires has { has pipe.edge self.old.physical.tree ≡ true }
        requires from { pipe.from < self.old.physical.workers }
        requires to { pipe.to < self.old.physical.workers }
        ensures put { OnOk result (Puts (seen self.old) pipe (seen self.new)) }
        ensures whole { OnOk result (IsWhole self.new.physical self.new.queued_instances) }
        ensures physical { self.new.physical ≡ self.old.physical }
        ensures depth { self.new.depth ≡ self.old.depth }
    {
        self.queued_instances[pipe.edge as usize].held[pipe.from as usize].put(pipe.to)
    }

    // Removes and returns the first note of a pipe.
    fn remove_first(&mut self, pipe: PipeId) -> Note
        requires some { 0 < length (queue_in self.old.queued_instances pipe.edge pipe.from pipe.to) }
        requires whole { IsWhole self.old.physical self.old.queued_instances }
        requires has { has pipe.edge self.old.physical.tree ≡ true }
        requires from { pipe.from < self.old.physical.workers }
        requires to { pipe.to < self.old.physical.workers }
        ensures note { result ≡ first_note (queue_in self.old.queued_instances pipe.edge pipe.from pipe.to) }
        ensures instances { (at worker : ℕ) → instance_in self.new.queued_instances at worker
            ≡ instance_in self.old.queued_instances at worker }
        ensures queue { ListChanged (queue_in self.old.queued_instances) pipe
            (later (queue_in self.old.queued_instances pipe.edge pipe.from pipe.to)) (queue_in self.new.queued_instances) }
        ensures whole { IsWhole self.new.physical self.new.queued_instances }
        ensures physical { self.new.physical ≡ self.old.physical }
        ensures depth { self.new.depth ≡ self.old.depth }
    {
        self.queued_instances[pipe.edge as usize].held[pipe.from as usize].remove_first(pipe.to)
    }

    fn receive(
        &mut self,
        at: u32,
        worker: u32,
        port: u32,
        from: u32,
        note: Note,
    ) -> Result<(), OutOfMemory>
        requires ready { IsReadyFor (instance_in self.old.queued_instances at worker) worker port from note }
        requires whole { IsWhole self.old.physical self.old.queued_instances }
        requires has { has at self.old.physical.tree ≡ true }
        requires worker { worker < self.old.physical.workers }
        ensures took { OnOk result ((s : Spot) (taken : ℕ → ℕ → List NoteData) (put : ℕ → List NoteData)
            → IsLocal s worker (instance_in self.old.queued_instances at worker) taken put
            → Took s worker (instance_in self.old.queued_instances at worker) port from note
            (instance_in self.new.queued_instances at worker)) }
        ensures others { OnOk result (OthersSame (seen self.old) at worker (seen self.new)) }
        ensures queues { OnOk result ((edge a b : ℕ)
            → queue_in self.new.queued_instances edge a b ≡ queue_in self.old.queued_instances edge a b) }
        ensures whole { OnOk result (IsWhole self.new.physical self.new.queued_instances) }
        ensures physical { self.new.physical ≡ self.old.physical }
        ensures depth { self.new.depth ≡ self.old.depth }
    {
        self.queued_instances[at as usize].held[worker as usize].take(port, from, note)
    }

    fn end(&mut self, at: u32, worker: u32)
        requires wanted { want (instance_in self.old.queued_instances at worker) ≡ wants.End }
        requires whole { IsWhole self.old.physical self.old.queued_instances }
        requires has { has at self.old.physical.tree ≡ true }
        requires worker { worker < self.old.physical.workers }
        ensures ends { Ends (seen self.old) at worker (seen self.new) }
        ensures whole { IsWhole self.new.physical self.new.queued_instances }
        ensures physical { self.new.physical ≡ self.old.physical }
        ensures depth { self.new.depth ≡ self.old.depth }
    {
        self.queued_instances[at as usize].held[worker as usize].end();
    }

    // Moves the first note of a pipe to its reader.
    fn take(&mut self, pipe: PipeId) -> Result<(), OutOfMemory>
        requires can { enabled self.old.physical self.old.depth (seen self.old) (events.Take pipe) ≡ true }
        requires stands { StandsForSome self.old }
        ensures stepped { OnOk result ((g : Setting) (h : History) → IsStanding g self.old h
            → Steps g (seen self.old) (events.Take pipe) (seen self.new)) }
        ensures whole { OnOk result (IsWhole self.new.physical self.new.queued_instances) }
        ensures physical { self.new.physical ≡ self.old.physical }
        ensures depth { self.new.depth ≡ self.old.depth }
    {
        let Some((at, port)) = self.tables.reader(pipe.edge) else {
            unreachable!()
        };
        let note = self.remove_first(pipe);
        self.receive(at, pipe.to, port, pipe.from, note)
    }

    // Lets the event happen.
    fn change(&mut self, event: Event) -> Result<(), OutOfMemory>
        requires can { enabled self.old.physical self.old.depth (seen self.old) event ≡ true }
        requires stands { StandsForSome self.old }
        ensures stepped { OnOk result ((g : Setting) (h : History) → IsStanding g self.old h
            → Steps g (seen self.old) event (seen self.new)) }
        ensures whole { OnOk result (IsWhole self.new.physical self.new.queued_instances) }
        ensures physical { self.new.physical ≡ self.old.physical }
        ensures depth { self.new.depth ≡ self.old.depth }
    {
        match event {
            Event::Put(pipe) => self.put(pipe),
            Event::Take(pipe) => self.take(pipe),
            Event::End { at, worker } => {
                self.end(at, worker);
                Ok(())
            }
        }
    }

    /// Lets an event happen. After an out-of-memory error the world may only be dropped.
    pub fn step(&mut self, event: Event) -> Result<(), OutOfMemory>
        requires can { enabled self.old.physical self.old.depth (seen self.old) event ≡ true }
        requires stands { StandsForSome self.old }
        ensures stepped { OnOk result ((g : Setting) (h : History) → IsStanding g self.old h
            → Steps g (seen self.old) event (seen self.new)) }
        ensures standing { OnOk result ((g : Setting) (h : History) → IsStanding g self.old h
            → IsStanding g self.new (noted (seen self.old) event h)) }
        ensures room { OnOk result (KeepsDepth self.old.depth (seen self.old) event (seen self.new)) }
        ensures physical { self.new.physical ≡ self.old.physical }
        ensures depth { self.new.depth ≡ self.old.depth }
        ensures stands { OnOk result (StandsForSome self.new) }
        ensures laws { OnOk result (ObeysLaws self.new) }
        ensures parts { OnOk result ((at worker : ℕ) → (instance_in self.new.queued_instances at worker).part
            ≡ (instance_in self.old.queued_instances at worker).part) }
    {
        self.change(event)
    }

    /// What is left at the end: the records that the root's instances placed, and how many records each source and
    /// operator emitted.
    pub(crate) fn finish(self) -> Result<Outcome, OutOfMemory>
        requires { StandsForSome self }
        ensures { IfOk result (λ o. IsOutcome self o.rows o.counts) }
    {
        let counts = counts_of(self.alloc, &self.queued_instances)?;
        let root = self.tables.root();
        let mut queued_instances = self.queued_instances;
        let rows = queued_instances
            .swap_remove(root as usize)
            .into_placed(self.alloc)?;
        Ok(Outcome { rows, counts })
    }
}
