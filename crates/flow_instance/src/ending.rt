//! End marks that an instance takes.

ghost use Rattle.std.specs.Prelude.{◌≡◌, ◌<◌, [], false, IfOk, OnOk};
ghost use Rattle.flow_instance.specs.declared.notes.Note.TheVariants.{End};
ghost use Rattle.flow_instance.specs.States.{HasEnded, IsReady, IsSound, IsWhole};
ghost use Rattle.flow_instance.specs.StateSteps.{GivesGroups, Takes};

use crate::grouping::{cogroup_kept, reduce_kept};
use crate::states::State;
use local_strategy::Local;
use pact_bag::Rows;
use pact_record::OutOfMemory;

impl<L: Local> State<L> {
    // A Match or a Cross seals the rows that it keeps once its left side has ended.
    fn end_left(&mut self, from: u32) -> Result<(), OutOfMemory>
        requires sound { IsSound L.rows L.key_fields L.is_sealed self.old }
        requires from { from < self.old.part.workers }
        requires not_sealed { L.is_sealed self.old.left ≡ false }
        ensures ended { OnOk result (HasEnded L.rows self.old 0 from self.new) }
        ensures sound { OnOk result (IsSound L.rows L.key_fields L.is_sealed self.new) }
    {
        self.left_ended.end(from);
        if !self.part.pairs() {
            return Ok(());
        }
        if !self.left_ended.have_all_ended() {
            return Ok(());
        }
        self.left.seal()
    }

    fn end_sender(&mut self, port: u32, from: u32) -> Result<(), OutOfMemory>
        requires ready { IsReady L.rows L.key_fields L.is_sealed self.old port }
        requires from { from < self.old.part.workers }
        ensures ended { OnOk result (HasEnded L.rows self.old port from self.new) }
        ensures sound { OnOk result (IsSound L.rows L.key_fields L.is_sealed self.new) }
    {
        if port == 0 {
            return self.end_left(from);
        }
        self.right_ended.end(from);
        Ok(())
    }

    // What a Reduce or a CoGroup emits for all groups.
    fn groups(&mut self) -> Result<Rows, OutOfMemory>
        requires sound { IsSound L.rows L.key_fields L.is_sealed self.old }
        ensures { IfOk result (GivesGroups L.rows self.old self.new) }
    {
        if self.part.is_pipelined() {
            return Ok(Rows::new(self.alloc));
        }
        self.left.seal()?;
        if self.part.reduces() {
            let part = &self.part;
            return reduce_kept(self.alloc, part.function(), &part.left_keys, &self.left);
        }
        self.right.seal()?;
        let part = &self.part;
        cogroup_kept(
            self.alloc,
            part.function(),
            &part.left_keys,
            &part.right_keys,
            &self.left,
            &self.right,
        )
    }

    // Keeps no rows any more. They are freed here, on the worker that kept them.
    fn forget(&mut self) -> Result<(), OutOfMemory>
        ensures same { OnOk result (self.new ≡ record self.old { left = self.new.left; right = self.new.right }) }
        ensures left { OnOk result (L.rows self.new.left ≡ []) }
        ensures right { OnOk result (L.rows self.new.right ≡ []) }
    {
        self.left = L::start(self.alloc, &self.part.left_keys)?;
        self.right = L::start(self.alloc, &self.part.right_keys)?;
        Ok(())
    }

    // What is emitted for all groups. Afterwards no rows are kept.
    fn last_groups(&mut self) -> Result<Rows, OutOfMemory>
        requires sound { IsSound L.rows L.key_fields L.is_sealed self.old }
        ensures { IfOk result (GivesGroups L.rows self.old self.new) }
    {
        let out = self.groups()?;
        self.forget()?;
        Ok(out)
    }

    /// Takes an end mark at a port. The last one makes it emit what waited for all input, and queues its own end marks.
    pub(crate) fn take_end(&mut self, port: u32, from: u32) -> Result<(), OutOfMemory>
        requires ready { IsReady L.rows L.key_fields L.is_sealed self.old port }
        requires from { from < self.old.part.workers }
        ensures { OnOk result (Takes L.rows L.key_fields L.is_sealed self.old port from End self.new) }
    {
        self.end_sender(port, from)?;
        if !self.all_ended() {
            return Ok(());
        }
        let out = self.last_groups()?;
        self.give(out)?;
        self.mark()
    }

    /// Afterwards the instance wants nothing.
    pub(crate) fn close(&mut self)
        ensures { IsWhole L.rows L.key_fields L.is_sealed self.new }
    {
        self.left_ended.clear();
        self.right_ended.clear();
        self.queue.clear();
        self.finished = true;
        self.receiver = self.part.workers;
    }
}
