//! The rule of a pipe's queue, and what becomes known to the end that takes each step.

use crate::widths::Width;
use crossbeam_queue::protocol::{Join, Lesson, Outcome, Protocol, Split};
use crossbeam_queue::{Pass, RuledArrayQueue};
use flow_instance::Note;
use std::collections::LinkedList;
use std::marker::PhantomData;

/// What a pass knows: whether it may put and take, the notes put and the notes taken. It exists only in contracts; no
/// value of it is made.
pub struct View {
    pub puts: bool,
    pub takes: bool,
    pub put: LinkedList<Note>,
    pub taken: LinkedList<Note>,
}

/// The rule, for records with this number of values.
pub struct Piped<W: Width> {
    width: PhantomData<W>,
}

impl<W: Width> Protocol<Note, View> for Piped<W> {
    ghost use Rattle.std.specs.Prelude.{true, []};
    ghost use Rattle.batch_channel.specs.Rule.{view_of, IsPiped};

    ghost holds = { IsPiped W.fields };

    ghost first = { view_of true true [] [] };
}

/// The first pass is split into those of the two ends, and they are joined again.
pub struct BothEnds;

impl Split<View> for BothEnds {
    ghost use Rattle.std.specs.Prelude.{true, false, []};
    ghost use Rattle.batch_channel.specs.Rule.{view_of};

    ghost left = { λ v. view_of true false v.put [] };

    ghost right = { λ v. view_of false true [] v.taken };
}

impl Join<View> for BothEnds {
    ghost use Rattle.std.specs.Prelude.{true, false, []};
    ghost use Rattle.batch_channel.specs.Rule.{view_of};

    ghost both = { λ v w. view_of true true v.put w.taken };

    ghost spent = { view_of false false [] [] };
}

/// One more note is put. If the queue is full, it holds the last of the notes put.
pub struct Puts;

impl Outcome<Note, View> for Puts {
    ghost use Rattle.std.specs.Prelude.{◌≡◌, ◌++◌, ◌∷◌, []};
    ghost use Rattle.batch_channel.specs.Rule.{view_of};

    ghost then = { λ v x w. w ≡ view_of v.puts v.takes (v.put ++ x ∷ []) v.taken };
}

impl Lesson<Note, View> for Puts {
    ghost use Rattle.batch_channel.specs.Rule.{IsBehind};

    ghost fact = { IsBehind };
}

/// One more note is taken, and its records have the pipe's number of values. If the queue is empty, nothing becomes
/// known.
pub struct Takes<W: Width> {
    width: PhantomData<W>,
}

impl<W: Width> Outcome<Note, View> for Takes<W> {
    ghost use Rattle.std.specs.Prelude.{◌≡◌, ◌++◌, ◌∷◌, []};
    ghost use Rattle.flow_instance.specs.Notes.{IsNote};
    ghost use Rattle.batch_channel.specs.Rule.{view_of};

    ghost then = { λ v x w. IsNote W.fields x × (w ≡ view_of v.puts v.takes v.put (v.taken ++ x ∷ [])) };
}

impl<W: Width> Lesson<Note, View> for Takes<W> {
    ghost use Rattle.std.specs.Prelude.{⊤};

    ghost fact = { λ v items. ⊤ };
}

/// After the ends are joined, a note that is taken is the next of those put, and the queue holds all notes put that
/// weren't taken.
pub struct Leaves<W: Width> {
    width: PhantomData<W>,
}

impl<W: Width> Outcome<Note, View> for Leaves<W> {
    ghost use Rattle.std.specs.Prelude.{◌≡◌, ◌++◌, ◌∷◌, [], List};
    ghost use Rattle.flow_instance.specs.Notes.{IsNote};
    ghost use Rattle.batch_channel.specs.Rule.{view_of};
    ghost use Rattle.flow_instance.specs.declared.notes.Note.{Note};

    ghost then = { λ v x w. IsNote W.fields x × ((rest : List Note) × (v.put ≡ v.taken ++ x ∷ rest)) × (w ≡ view_of v.puts v.takes v.put (v.taken ++ x ∷ [])) };
}

impl<W: Width> Lesson<Note, View> for Leaves<W> {
    ghost use Rattle.std.specs.Prelude.{◌≡◌, ◌++◌};

    ghost fact = { λ v items. v.put ≡ v.taken ++ items };
}

pub type Queue<W> = RuledArrayQueue<Note, View, Piped<W>>;

pub type NotePass = Pass<Note, View>;
