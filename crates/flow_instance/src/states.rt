//! The fields of an instance.

ghost use Rattle.std.specs.Prelude.{◌≡◌, ◌≤◌, ◌<◌, [], true, length, IfOk, OnOk};
ghost use Rattle.flow_instance.specs.Instances.{all_ended};
ghost use Rattle.pact_record.specs.Widths.{AreWide};
ghost use Rattle.flow_instance.specs.Sending.{AreFew};
ghost use Rattle.flow_instance.specs.StateSteps.{Gives, HasMarked};
ghost use Rattle.flow_instance.specs.States.{HasBegun, IsFresh, PlacesAtRoot, part_of, seen};

use crate::addressed_notes::AddressedNote;
use crate::parts::Part;
use crate::senders::senders_at;
use crate::sending::{queue_end_marks, queue_rows};
use local_strategy::Local;
use pact_bag::Rows;
use pact_record::OutOfMemory;
use plan_trees::EndedSenders;
use std::alloc::Global;
use std::collections::VecDeque;

/// For each port, the state has the senders that have ended and the kept rows. It also has the waiting notes with their
/// receivers, batches before end marks, and the records that the root gave, and it counts the given records.
#[derive(Drop)]
pub(crate) struct State<L: Local> {
    pub(crate) alloc: Global,
    pub(crate) part: Part,
    pub(crate) left_ended: EndedSenders,
    pub(crate) right_ended: EndedSenders,
    pub(crate) left: L,
    pub(crate) right: L,
    pub(crate) queue: VecDeque<AddressedNote>,
    pub(crate) receiver: u32,
    pub(crate) placed: Rows,
    pub(crate) given: u64,
    pub(crate) finished: bool,
}

impl<L: Local> State<L> {
    /// A state for which nothing was taken or given, and nothing waits.
    pub(crate) fn fresh(alloc: Global, part: Part) -> Result<State<L>, OutOfMemory>
        ensures { IfOk result (IsFresh L.rows L.key_fields L.is_sealed part) }
    {
        let left = L::start(alloc, &part.left_keys)?;
        let right = L::start(alloc, &part.right_keys)?;
        let left_ended = senders_at(alloc, &part, 0)?;
        let right_ended = senders_at(alloc, &part, 1)?;
        let receiver = part.workers;
        Ok(State {
            alloc,
            part,
            left_ended,
            right_ended,
            left,
            right,
            queue: VecDeque::new(alloc),
            receiver,
            placed: Rows::new(alloc),
            given: 0,
            finished: false,
        })
    }

    pub(crate) fn all_ended(&self) -> bool
        requires left { length self.now.left_ended ≡ self.now.part.workers }
        requires right { length self.now.right_ended ≡ self.now.part.workers }
        ensures { result ≡ all_ended (seen L.rows self.now) }
    {
        self.left_ended.have_all_ended() && self.right_ended.have_all_ended()
    }

    /// An instance starts: it gives its own rows, which only a source has, and queues its end marks if no sender is to
    /// come.
    pub(crate) fn begin(&mut self, rows: Rows) -> Result<(), OutOfMemory>
        requires batch { 1 ≤ self.old.part.batch }
        requires worker { self.old.part.worker < self.old.part.workers }
        requires left { length self.old.left_ended ≡ self.old.part.workers }
        requires right { length self.old.right_ended ≡ self.old.part.workers }
        requires wide { AreWide self.old.part.fields rows }
        requires placed { self.old.placed ≡ [] }
        requires none { self.old.queue.items ≡ [] }
        ensures begun { OnOk result (HasBegun L.rows self.old rows self.new) }
        ensures batches { OnOk result (AreFew self.old.part.batch self.new.queue.items) }
    {
        self.give(rows)?;
        if !self.all_ended() {
            return Ok(());
        }
        self.mark()
    }

    /// Sends the records on, or places them if no edge leaves.
    pub(crate) fn give(&mut self, rows: Rows) -> Result<(), OutOfMemory>
        requires batch { 1 ≤ self.old.part.batch }
        requires worker { self.old.part.worker < self.old.part.workers }
        requires wide { AreWide self.old.part.fields rows }
        requires placed_wide { AreWide self.old.part.fields self.old.placed }
        requires at_root { PlacesAtRoot self.old.part.out self.old.placed }
        requires none { self.old.queue.items ≡ [] }
        ensures { OnOk result (Gives self.old rows self.new) }
    {
        self.given = self.given.saturating_add(rows.len() as u64);
        let Some(ship) = &self.part.out else {
            let mut rows = rows;
            return self.placed.append(&mut rows);
        };
        queue_rows(
            self.alloc,
            ship,
            self.part.worker,
            self.part.workers,
            self.part.batch,
            rows,
            &mut self.queue,
        )
    }

    /// Queues the end marks after the waiting notes.
    pub(crate) fn mark(&mut self) -> Result<(), OutOfMemory>
        ensures same { OnOk result (self.new ≡ record self.old { queue = self.new.queue }) }
        ensures marked { OnOk result (HasMarked (part_of self.old.part) self.old.queue.items self.new.queue.items) }
    {
        let Some(ship) = &self.part.out else {
            return Ok(());
        };
        queue_end_marks(ship, self.part.worker, self.part.workers, &mut self.queue)
    }
}
