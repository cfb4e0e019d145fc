//! The two ends of a pipe.

ghost use Rattle.std.specs.Prelude.{◌≡◌, length};

use crate::rules::NotePass;
use crate::widths::Width;
use std::marker::{Model, PhantomData};

/// The end that puts. Contracts see the identity of its pipe, and the notes that it has put.
#[derive(Drop)]
pub struct PutEnd<W: Width> {
    pub(crate) pass: NotePass,
    pub(crate) count: u64,
    pub(crate) width: PhantomData<W>,
}

impl<W: Width> Model for PutEnd<W> {
    ghost use Rattle.std.specs.Prelude.{◌≡◌, true, false, length, []};
    ghost use Rattle.batch_channel.specs.Ends.{AnEnd};
    ghost use Rattle.crossbeam_queue.specs.Passes.{view as seen};

    ghost Value = { AnEnd };

    ghost view = { λ e. record { name = e.pass.table_id; notes = (seen e.pass).put } };

    ghost invariant = { λ e. ((seen e.pass).puts ≡ true) × ((seen e.pass).takes ≡ false) × (e.pass.me.1 ≡ []) × (e.count ≡ length (seen e.pass).put) };
}

impl<W: Width> PutEnd<W> {
    /// How many notes the end has put. A note that was handed back doesn't count.
    pub fn len(&self) -> u64
        ensures { result ≡ length self.now.notes }
    {
        self.count
    }
}

/// The end that takes. Contracts see the identity of its pipe, and the notes that it has taken.
#[derive(Drop)]
pub struct TakeEnd<W: Width> {
    pub(crate) pass: NotePass,
    pub(crate) width: PhantomData<W>,
}

impl<W: Width> Model for TakeEnd<W> {
    ghost use Rattle.std.specs.Prelude.{◌≡◌, true, false, []};
    ghost use Rattle.batch_channel.specs.Ends.{AnEnd};
    ghost use Rattle.crossbeam_queue.specs.Passes.{view as seen};

    ghost Value = { AnEnd };

    ghost view = { λ e. record { name = e.pass.table_id; notes = (seen e.pass).taken } };

    ghost invariant = { λ e. ((seen e.pass).puts ≡ false) × ((seen e.pass).takes ≡ true) × (e.pass.me.1 ≡ []) };
}
