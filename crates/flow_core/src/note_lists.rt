//! Pipes with the notes that a run has left on them.

ghost use Rattle.std.specs.Prelude.{◌≡◌, ◌<◌, ◌++◌, ◌∷◌, [], length, slice_get, IfErr, OnErr, OnOk, Some};

use flow_instance::{Note, PipeId};
use std::alloc::{AllocFailed, Global};
use std::collections::VecDeque;
use std::marker::Model;

/// The notes that are left on a pipe, the next one first.
#[derive(Drop)]
pub(crate) struct NoteList {
    pub(crate) pipe: PipeId,
    pub(crate) notes: VecDeque<Note>,
}

impl Model for NoteList {
    ghost use Rattle.flow_core.specs.Left.{LeftOn};
    ghost use Rattle.flow_core.specs.LeftCode.{coded_left};

    ghost Value = { LeftOn };

    ghost coded = { coded_left };

    ghost view = { λ l. record { pipe = l.pipe; notes = l.notes.items } };
}

/// Pipes with the notes that are left on them.
#[derive(Drop)]
pub struct NoteLists {
    pub(crate) lists: Vec<NoteList>,
}

impl Model for NoteLists {
    ghost use Rattle.std.specs.Prelude.{List};
    ghost use Rattle.flow_core.specs.Left.{LeftOn};
    ghost use Rattle.flow_core.specs.LeftCode.{coded_lists};

    ghost Value = { List LeftOn };

    ghost coded = { coded_lists };

    ghost view = { λ l. l.lists.items };
}

impl NoteLists {
    /// A list without pipes.
    pub fn new(alloc: Global) -> NoteLists
        ensures { result ≡ [] }
    {
        NoteLists {
            lists: Vec::new(alloc),
        }
    }

    /// Lists a pipe with its notes, the next one first. If a pipe is listed more than once, the notes listed later come
    /// after those listed earlier. If memory runs out, the pipe and its notes come back.
    pub fn push(
        &mut self,
        pipe: PipeId,
        notes: VecDeque<Note>,
    ) -> Result<(), AllocFailed<(PipeId, VecDeque<Note>)>>
        ensures ok { OnOk result (self.new ≡ self.old ++ record { pipe = pipe; notes = notes.items } ∷ []) }
        ensures err { OnErr result (self.new ≡ self.old) }
        ensures handed_back { IfErr result (λ e. (e.value.0 ≡ pipe) × (e.value.1.items ≡ notes.items)) }
    {
        match self.lists.push(NoteList { pipe, notes }) {
            Ok(()) => Ok(()),
            Err(
                AllocFailed {
                    value: NoteList { pipe, notes },
                },
            ) => Err(AllocFailed {
                value: (pipe, notes),
            }),
        }
    }

    /// The number of pipes that are listed; one that is listed twice counts twice.
    pub fn len(&self) -> usize
        ensures { result ≡ length self.now }
    {
        self.lists.len()
    }

    /// The pipe that is listed at a place, and the notes that are listed with it.
    pub fn at(&self, at: usize) -> (PipeId, &VecDeque<Note>)
        requires { at < length self.now }
        ensures { slice_get self.now at ≡ Some (record { pipe = result.0; notes = result.1.now.items }) }
    {
        let NoteList { pipe, notes } = &self.lists[at];
        (*pipe, notes)
    }
}
