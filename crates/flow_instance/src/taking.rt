//! Notes that an instance takes, and the effect of a batch on it.

ghost use Rattle.std.specs.Prelude.{◌≡◌, ◌<◌, ◌∷◌, [], ℕ, true, IfOk, OnOk};
ghost use Rattle.flow_instance.specs.Notes.{AreNotes};
ghost use Rattle.flow_instance.specs.declared.notes.Note.TheVariants.{Batch};
ghost use Rattle.pact_record.specs.Widths.{AreWide};
ghost use Rattle.pact_operators.specs.Programs.{is_pair_kind};
ghost use Rattle.flow_instance.specs.States.{ArePairsGiven, IsReady};
ghost use Rattle.flow_instance.specs.StateSteps.{Takes};

use crate::keeping::keep;
use crate::matching::{cross_kept, match_kept};
use crate::notes::Note;
use crate::states::State;
use local_strategy::Local;
use pact_bag::Rows;
use pact_record::OutOfMemory;
use tac_interp::map_rows;

impl<L: Local> State<L> {
    // What a Match or a Cross emits for right records.
    fn pairs(&self, rows: &Rows) -> Result<Rows, OutOfMemory>
        requires ready { IsReady L.rows L.key_fields L.is_sealed self.now 1 }
        requires kind { is_pair_kind self.now.part.kind ≡ true }
        requires wide { AreWide self.now.part.fields rows.now }
        ensures given { IfOk result (ArePairsGiven L.rows L.key_fields self.now rows.now) }
        ensures widths { IfOk result (AreWide self.now.part.fields) }
    {
        let part = &self.part;
        if part.crosses() {
            return cross_kept(self.alloc, part.function(), &self.left, rows);
        }
        match_kept(
            self.alloc,
            part.nulls,
            part.function(),
            &self.left,
            &part.right_keys,
            rows,
        )
    }

    // Takes a batch at port 0. A Map emits records at once.
    fn take_left(&mut self, rows: Rows) -> Result<(), OutOfMemory>
        requires ready { IsReady L.rows L.key_fields L.is_sealed self.old 0 }
        requires wide { AreWide self.old.part.fields rows }
        ensures { OnOk result ((from : ℕ) → Takes L.rows L.key_fields L.is_sealed self.old 0 from (Batch rows) self.new) }
    {
        if self.part.maps() {
            let out = map_rows(self.alloc, self.part.function(), rows)?;
            return self.give(out);
        }
        let part = &self.part;
        let nulls = part.keeps_nulls();
        keep(&mut self.left, part.fields, nulls, &part.left_keys, rows)
    }

    // Takes a batch at port 1. A Match or a Cross emits records at once.
    fn take_right(&mut self, rows: Rows) -> Result<(), OutOfMemory>
        requires ready { IsReady L.rows L.key_fields L.is_sealed self.old 1 }
        requires wide { AreWide self.old.part.fields rows }
        ensures { OnOk result ((from : ℕ) → Takes L.rows L.key_fields L.is_sealed self.old 1 from (Batch rows) self.new) }
    {
        if self.part.pairs() {
            let out = self.pairs(&rows)?;
            return self.give(out);
        }
        let part = &self.part;
        keep(&mut self.right, part.fields, true, &part.right_keys, rows)
    }

    /// Takes a note at a port.
    pub(crate) fn take(&mut self, port: u32, from: u32, note: Note) -> Result<(), OutOfMemory>
        requires ready { IsReady L.rows L.key_fields L.is_sealed self.old port }
        requires from { from < self.old.part.workers }
        requires note { AreNotes self.old.part.fields (note ∷ []) }
        ensures { OnOk result (Takes L.rows L.key_fields L.is_sealed self.old port from note self.new) }
    {
        match note {
            Note::Batch(rows) => {
                if port == 0 {
                    return self.take_left(rows);
                }
                self.take_right(rows)
            }
            Note::End => self.take_end(port, from),
        }
    }
}
