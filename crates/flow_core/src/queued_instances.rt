//! Instances with the pipes that leave them.

ghost use Rattle.std.specs.Prelude.{◌≡◌, ◌<◌, [], get_or, length, IfOk, OnOk};
ghost use Rattle.std.specs.List.{AllByRecursion};
ghost use Rattle.pact_bag.specs.Rows.{HaveOneWidth};
ghost use Rattle.plan_trees.specs.Sending.{all_of};
ghost use Rattle.flow_instance.specs.declared.notes.Want.TheVariants.{End, Put};
ghost use Rattle.flow_instance.specs.Events.{first_note};
ghost use Rattle.flow_instance.specs.Instances.{want};
ghost use Rattle.flow_core.specs.Left.{AreAllEmptied, AreEmptied, refilled};
ghost use Rattle.flow_core.specs.QueuedInstances.{CanTake, TakesNote, placed_by, total_given, with_end, with_put, without_first};

use crate::instance_lists::{InstanceList, Instances};
use flow_instance::{Instance, Note};
use local_strategy::Local;
use pact_bag::Rows;
use pact_record::OutOfMemory;
use std::alloc::Global;
use std::collections::VecDeque;
use std::marker::Model;

/// The notes on a pipe, the next one first.
#[derive(Drop)]
pub(crate) struct Queue {
    pub(crate) notes: VecDeque<Note>,
}

impl Model for Queue {
    ghost use Rattle.std.specs.Prelude.{List};
    ghost use Rattle.flow_instance.specs.declared.notes.Note.{Note as NoteData};

    ghost Value = { List NoteData };

    ghost view = { λ q. q.notes.items };
}

/// An instance with the notes on the pipes that leave it, by receiver.
#[derive(Drop)]
pub(crate) struct QueuedInstance<L: Local> {
    pub(crate) instance: Instance<L>,
    pub(crate) queues: Vec<Queue>,
}

impl<L: Local> Model for QueuedInstance<L> {
    ghost use Rattle.flow_core.specs.Worlds.{QueuedInstanceData};
    ghost use Rattle.flow_core.specs.WorldCode.{coded_queued_instance};

    ghost Value = { QueuedInstanceData };

    ghost coded = { coded_queued_instance };

    ghost view = { λ s. record { instance = s.instance; queues = s.queues.items } };
}

impl<L: Local> QueuedInstance<L> {
    /// Moves the note that the instance wants to put to the pipe.
    pub(crate) fn put(&mut self, to: u32) -> Result<(), OutOfMemory>
        requires wanted { want self.old.instance ≡ Put to }
        requires to { to < length self.old.queues }
        ensures { OnOk result (self.new ≡ with_put self.old to) }
    {
        let note = self.instance.offer();
        self.queues[to as usize].notes.push_back(note)?;
        Ok(())
    }

    /// Appends notes that were left on the pipe to a receiver.
    pub(crate) fn refill(&mut self, to: u32, notes: VecDeque<Note>) -> Result<(), OutOfMemory>
        requires { to < length self.old.queues }
        ensures { OnOk result (self.new ≡ refilled self.old to notes.items) }
    {
        let mut notes = notes;
        self.queues[to as usize].notes.append(&mut notes)?;
        Ok(())
    }

    /// How many notes are on the pipe to a receiver.
    pub(crate) fn queued(&self, to: u32) -> usize
        ensures { result ≡ length (get_or self.now.queues to []) }
    {
        let Some(queue) = self.queues.get(to as usize) else {
            return 0;
        };
        queue.notes.len()
    }

    /// Removes and returns the first note of the pipe to a receiver.
    pub(crate) fn remove_first(&mut self, to: u32) -> Note
        requires { 0 < length (get_or self.old.queues to []) }
        ensures note { result ≡ first_note (get_or self.old.queues to []) }
        ensures queued_instance { self.new ≡ without_first self.old to }
    {
        let Some(note) = self.queues[to as usize].notes.pop_front() else {
            unreachable!()
        };
        note
    }

    /// The instance takes a note.
    pub(crate) fn take(&mut self, port: u32, from: u32, note: Note) -> Result<(), OutOfMemory>
        requires { CanTake self.old.instance port from note }
        ensures took { OnOk result (TakesNote self.old.instance port from note self.new.instance) }
        ensures queues { self.new.queues ≡ self.old.queues }
    {
        self.instance.took(port, from, note)
    }

    /// The instance ends.
    pub(crate) fn end(&mut self)
        requires { want self.old.instance ≡ End }
        ensures { self.new ≡ with_end self.old }
    {
        self.instance.end();
    }

    fn given(&self) -> u64
        ensures { result ≡ self.now.instance.given }
    {
        self.instance.given()
    }

    fn into_placed(self) -> Rows
        ensures { result ≡ self.instance.placed }
    {
        self.instance.into_placed()
    }
}

/// The queued instances of one source or operator, by worker.
#[derive(Drop)]
pub(crate) struct QueuedInstances<L: Local> {
    pub(crate) held: Vec<QueuedInstance<L>>,
}

impl<L: Local> Model for QueuedInstances<L> {
    ghost use Rattle.std.specs.Prelude.{List};
    ghost use Rattle.flow_core.specs.Worlds.{QueuedInstanceData};
    ghost use Rattle.flow_core.specs.WorldCode.{coded_queued_instances};

    ghost Value = { List QueuedInstanceData };

    ghost coded = { coded_queued_instances };

    ghost view = { λ r. r.held.items };
}

impl<L: Local> QueuedInstances<L> {
    /// The number of records that the instances emitted together, where the greatest u64 also counts for more.
    pub(crate) fn given(&self) -> u64
        ensures { result ≡ total_given self.now }
    {
        let mut total: u64 = 0;
        for queued_instance in &self.held {
            total = total.saturating_add(queued_instance.given());
        }
        total
    }

    /// The records that the instances placed, the last worker's first.
    pub(crate) fn into_placed(self, alloc: Global) -> Result<Rows, OutOfMemory>
        requires { HaveOneWidth (all_of (length self) (placed_by self)) }
        ensures { IfOk result (λ rows. rows ≡ all_of (length self) (placed_by self)) }
    {
        let mut held = self.held;
        let mut rows = Rows::new(alloc);
        while let Some(queued_instance) = held.pop() {
            let mut placed = queued_instance.into_placed();
            rows.append(&mut placed)?;
        }
        Ok(rows)
    }
}

// An empty pipe to each worker.
fn empty_queues(alloc: Global, workers: u32) -> Result<Vec<Queue>, OutOfMemory>
    ensures long { IfOk result (λ queues. length queues.items ≡ workers) }
    ensures empty { IfOk result (λ queues. AllByRecursion (λ queue. queue ≡ []) queues.items) }
{
    let mut queues = Vec::with_capacity(alloc, workers as usize)?;
    for _receiver in 0..workers {
        queues.push_reserved(Queue {
            notes: VecDeque::new(alloc),
        });
    }
    Ok(queues)
}

// The instances of one source or operator, each with an empty pipe to every worker.
fn queue_each<L: Local>(
    alloc: Global,
    workers: u32,
    own: Instances<L>,
) -> Result<QueuedInstances<L>, OutOfMemory>
    ensures { IfOk result (AreEmptied workers (length own) own) }
{
    let mut held = Vec::with_capacity(alloc, own.held.len())?;
    for instance in own.held {
        let queues = empty_queues(alloc, workers)?;
        held.push_reserved(QueuedInstance { instance, queues });
    }
    Ok(QueuedInstances { held })
}

/// The instances of all sources and operators, each with an empty pipe to every worker.
pub(crate) fn queue_all<L: Local>(
    alloc: Global,
    workers: u32,
    instances: InstanceList<L>,
) -> Result<Vec<QueuedInstances<L>>, OutOfMemory>
    ensures { IfOk result (λ all. AreAllEmptied workers (length instances) instances all.items) }
{
    let mut all = Vec::with_capacity(alloc, instances.all.len())?;
    for own in instances.all {
        all.push_reserved(queue_each(alloc, workers, own)?);
    }
    Ok(all)
}
