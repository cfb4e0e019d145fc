//! One operator or source on one worker.

ghost use Rattle.std.specs.Prelude.{◌≡◌, ◌≤◌, ◌<◌, ◌∷◌, [], ℕ, true, false, List, Some, length, map, slice_get, IfOk, OnOk};
ghost use Rattle.flow_instance.specs.Instances.{HasSmallBatches, Instance as InstanceData, ended_at, want};
ghost use Rattle.flow_instance.specs.Local.{IsLocal};
ghost use Rattle.flow_instance.specs.Notes.{AreNotes};
ghost use Rattle.flow_instance.specs.Spots.{Spot, is_edge, setting, spot};
ghost use Rattle.flow_instance.specs.Steps.{Added, AddedTo, Started, Took, finish, next_note, offered};
ghost use Rattle.flow_instance.specs.declared.notes.Note.{Note as NoteData};
ghost use Rattle.pact_operators.specs.Allowed.{Bag};
ghost use Rattle.pact_operators.specs.PlanOps.{is_source_kind, kind_at};
ghost use Rattle.pact_operators.specs.Programs.{IsPlanOf};
ghost use Rattle.pact_record.specs.Widths.{AreWide};
ghost use Rattle.plan_trees.specs.Plans.{has, subtree_of};
ghost use Rattle.flow_instance.specs.Limits.{batch_limit};
ghost use Rattle.flow_instance.specs.Starting.{CanStart, IsShareOf, IsStartedFrom};

use crate::addressed_notes::AddressedNote;
use crate::before_start::Unstarted;
use crate::notes::{Note, Want};
use crate::states::State;
use local_strategy::Local;
use pact_bag::Rows;
use pact_operators::{Physical, Program};
use pact_record::OutOfMemory;
use std::alloc::Global;
use std::marker::Model;

/// The most records of a batch.
pub const MAX_BATCH: u32 = 1024;

/// One operator or source on one worker. `want` returns what it can do next. The caller hands it the notes that it
/// takes, and fetches the notes that it puts.
#[derive(Drop)]
pub struct Instance<L: Local> {
    state: State<L>,
}

impl<L: Local> Model for Instance<L> {
    ghost use Rattle.flow_instance.specs.Instances.{Instance as InstanceData};
    ghost use Rattle.flow_instance.specs.InstanceCode.{coded_instance};
    ghost use Rattle.flow_instance.specs.States.{IsWhole, seen};

    ghost Value = { InstanceData };

    ghost coded = { coded_instance };

    ghost view = { λ i. seen L.rows i.state };

    ghost invariant = { λ i. IsWhole L.rows L.key_fields L.is_sealed i.state };
}

impl<L: Local> Instance<L> {
    /// The instance of an operator or a source of the plan on a worker, with batches of at most `batch` records. `rows`
    /// is the worker's share if it is a source, and otherwise empty. Out of memory is the only error.
    pub fn start(
        alloc: Global,
        program: &Program,
        physical: &Physical,
        at: u32,
        worker: u32,
        batch: u32,
        rows: Rows,
    ) -> Result<Instance<L>, OutOfMemory>
        requires plan { IsPlanOf program.now.functions program.now.ops physical.now.tree }
        requires has { has at physical.now.tree ≡ true }
        requires worker { worker < physical.now.workers }
        requires some { 1 ≤ batch }
        requires few { batch ≤ batch_limit }
        requires widths { AreWide program.now.fields rows }
        requires no_rows { is_source_kind (kind_at program.now.ops at) ≡ false → rows ≡ [] }
        ensures number { IfOk result (λ i. i.part.at ≡ at) }
        ensures worker { IfOk result (λ i. i.part.worker ≡ worker) }
        ensures batch { IfOk result (λ i. i.part.batch ≡ batch) }
        ensures small { IfOk result HasSmallBatches }
        ensures started { IfOk result (λ i. (inputs : List Bag) → IsShareOf program.now inputs at physical.now.workers worker rows → Started (spot (setting program.now inputs physical.now) (subtree_of at physical.now.tree)) worker i) }
        ensures local { IfOk result (λ i. (inputs : List Bag) → IsShareOf program.now inputs at physical.now.workers worker rows
            → IsLocal (spot (setting program.now inputs physical.now) (subtree_of at physical.now.tree)) worker i (λ port from. []) (λ to. [])) }
    {
        let unstarted = Unstarted::new(alloc, program, physical, at, worker, batch, rows)?;
        Instance::start_from(alloc, unstarted)
    }

    /// Starts an instance. A source divides its rows into batches for their receivers here. A run with threads can
    /// start each instance on another one, so that several workers do this at the same time. Out of memory is the only
    /// error.
    pub fn start_from(alloc: Global, unstarted: Unstarted) -> Result<Instance<L>, OutOfMemory>
        requires may { CanStart unstarted }
        ensures small { IfOk result HasSmallBatches }
        ensures started { IfOk result (IsStartedFrom unstarted) }
    {
        let Unstarted { part, rows } = unstarted;
        let mut state = State::fresh(alloc, part)?;
        state.begin(rows)?;
        Ok(Instance { state })
    }

    /// What it can do next.
    pub fn want(&self) -> Want
        ensures { result ≡ want self.now }
    {
        if let Some(addressed) = self.state.queue.front() {
            return Want::Put(addressed.to);
        }
        if !self.state.left_ended.have_all_ended() {
            return Want::Take(0);
        }
        if !self.state.right_ended.have_all_ended() {
            return Want::Take(1);
        }
        if self.state.finished {
            Want::Done
        } else {
            Want::End
        }
    }

    /// Takes a note that worker `from` sent, at the port that it wants. After an out-of-memory error it may only be
    /// dropped.
    pub fn took(&mut self, port: u32, from: u32, note: Note) -> Result<(), OutOfMemory>
        requires want { want self.old ≡ Want.Take port }
        requires edge { is_edge (slice_get self.old.part.ports port) from self.old.part.worker ≡ true }
        requires from { from < self.old.part.workers }
        requires not_ended { ended_at self.old port from ≡ false }
        requires note { AreNotes self.old.part.fields (note ∷ []) }
        ensures took { OnOk result ((s : Spot) (taken : ℕ → ℕ → List NoteData) (put : ℕ → List NoteData) → IsLocal s self.old.part.worker self.old taken put → Took s self.old.part.worker self.old port from note self.new) }
        ensures local { OnOk result ((s : Spot) (taken new : ℕ → ℕ → List NoteData) (put : ℕ → List NoteData) → IsLocal s self.old.part.worker self.old taken put
            → Added taken port from note new → IsLocal s self.old.part.worker self.new new put) }
        ensures part { OnOk result (self.new.part ≡ self.old.part) }
        ensures small { OnOk result (HasSmallBatches self.new) }
    {
        if let Err(refused) = self.state.take(port, from, note) {
            self.state.close();
            return Err(refused);
        }
        self.state.receiver = self.state.part.workers;
        Ok(())
    }

    /// Removes and returns the next note, which it wants to put.
    pub fn offer(&mut self) -> Note
        requires put { (to : ℕ) × (want self.old ≡ Want.Put to) }
        ensures note { result ≡ next_note self.old.waiting }
        ensures offered { self.new ≡ offered self.old }
        ensures out { self.new.receiver < self.new.part.workers }
        ensures local { (s : Spot) (taken : ℕ → ℕ → List NoteData) (put new : ℕ → List NoteData) (to : ℕ) → IsLocal s self.old.part.worker self.old taken put → want self.old ≡ Want.Put to
            → AddedTo put to result new → IsLocal s self.old.part.worker self.new taken new }
    {
        match self.state.queue.pop_front() {
            Some(addressed) => {
                self.state.receiver = addressed.to;
                addressed.note
            }
            None => unreachable!(),
        }
    }

    /// Puts back the note that the last `offer` returned, if nothing was done since. Afterwards no note is out.
    pub fn back(&mut self, note: Note)
        requires offered { (before : InstanceData) × (to : ℕ) × (want before ≡ Want.Put to) × (self.old ≡ offered before) × (note ≡ next_note before.waiting) }
        requires out { self.old.receiver < self.old.part.workers }
        ensures back { (before : InstanceData) (to : ℕ) → want before ≡ Want.Put to → self.old ≡ offered before → note ≡ next_note before.waiting → self.new ≡ record before { receiver = self.old.part.workers } }
        ensures wants { (before : InstanceData) (to : ℕ) → want before ≡ Want.Put to → self.old ≡ offered before → note ≡ next_note before.waiting → want self.new ≡ Want.Put to }
        ensures local { (before : InstanceData) (to : ℕ) (s : Spot) (taken : ℕ → ℕ → List NoteData) (put : ℕ → List NoteData) → want before ≡ Want.Put to → self.old ≡ offered before → note ≡ next_note before.waiting
            → IsLocal s self.old.part.worker before taken put → IsLocal s self.old.part.worker self.new taken put }
    {
        let to = self.state.receiver;
        self.state
            .queue
            .push_front_reserved(AddressedNote { to, note });
        self.state.receiver = self.state.part.workers;
    }

    /// Ends it, if it wants to end. Afterwards it is done.
    pub fn end(&mut self)
        requires { want self.old ≡ Want.End }
        ensures ended { self.new ≡ finish self.old }
        ensures local { (s : Spot) (taken : ℕ → ℕ → List NoteData) (put : ℕ → List NoteData) → IsLocal s self.old.part.worker self.old taken put → IsLocal s self.old.part.worker self.new taken put }
    {
        self.state.finished = true;
    }

    /// The records that an instance of the root has given so far. Any other instance has none.
    pub fn placed(&self) -> &Rows
        ensures { result.now ≡ self.now.placed }
    {
        &self.state.placed
    }

    /// Like `placed`, but takes the records out of an instance that isn't used any more.
    pub fn into_placed(self) -> Rows
        ensures { result ≡ self.placed }
    {
        let state = self.state;
        state.placed
    }

    /// The number of records given so far. It saturates at the greatest u64.
    pub fn given(&self) -> u64
        ensures { result ≡ self.now.given }
    {
        self.state.given
    }

    /// The number of the source or operator that sends along the edge of the port.
    pub fn edge(&self, port: u32) -> u32
        requires { port < length self.now.part.ports }
        ensures { slice_get (map (λ p. p.edge) self.now.part.ports) port ≡ Some result }
    {
        self.state.part.ports[port as usize].edge
    }

    /// Whether the end mark of worker `from` was taken at the port. A worker that doesn't send there counts as ended.
    pub fn ended(&self, port: u32, from: u32) -> bool
        requires port { port < length self.now.part.ports }
        requires from { from < self.now.part.workers }
        ensures { result ≡ ended_at self.now port from }
    {
        match port {
            0 => self.state.left_ended.has_ended(from),
            1 => self.state.right_ended.has_ended(from),
            _ => true,
        }
    }
}
