//! What is left in a pipe whose ends are joined.

ghost use Rattle.std.specs.Prelude.{◌≡◌, ◌++◌, ◌∷◌, [], IfSome, IfNone, MatchOption};
ghost use Rattle.flow_instance.specs.Notes.{IsNote};

use crate::ends::{PutEnd, TakeEnd};
use crate::pipes::Pipe;
use crate::rules::{BothEnds, Leaves, NotePass, Queue};
use crate::widths::Width;
use flow_instance::Note;
use std::marker::Model;
use std::sync::Wait;

/// The notes that were put and not taken. Contracts see them as a list, the oldest first.
#[derive(Drop)]
pub struct Left<W: Width> {
    queue: Queue<W>,
    pass: NotePass,
}

impl<W: Width> Model for Left<W> {
    ghost use Rattle.std.specs.Prelude.{◌≡◌, ◌++◌, true, List, length, drop};
    ghost use Rattle.crossbeam_queue.specs.Passes.{view as seen, IsPassOf};
    ghost use Rattle.flow_instance.specs.declared.notes.Note.{Note};

    ghost Value = { List Note };

    ghost view = { λ l. drop (length (seen l.pass).taken) (seen l.pass).put };

    ghost invariant = { λ l. IsPassOf l.queue l.pass × ((seen l.pass).puts ≡ true) × ((seen l.pass).takes ≡ true) × ((seen l.pass).put ≡ (seen l.pass).taken ++ drop (length (seen l.pass).taken) (seen l.pass).put) };
}

/// Joins the ends of a pipe. What was taken, followed by what is left, is what was put.
pub fn close<W: Width, R: Wait>(_rt: &R, pipe: Pipe<W>, put: PutEnd<W>, take: TakeEnd<W>) -> Left<W>
    requires put { put.name ≡ pipe.name }
    requires take { take.name ≡ pipe.name }
    ensures { put.notes ≡ take.notes ++ result }
{
    let Pipe { queue } = pipe;
    let mut pass = put.pass;
    queue.absorb::<BothEnds>(&mut pass, take.pass);
    queue.learn_as::<Leaves<W>>(&mut pass);
    Left { queue, pass }
}

impl<W: Width> Left<W> {
    /// The next of the notes that are left. It returns None if none is left, and does so again at each later call.
    pub fn next<R: Wait>(&mut self, rt: &R) -> Option<Note>
        ensures next { MatchOption result (self.old ≡ []) (λ note. self.old ≡ note ∷ self.new) }
        ensures note { IfSome result (λ note. IsNote W.fields note) }
        ensures unchanged { IfNone result (self.new ≡ self.old) }
    {
        self.queue.pop_as::<Leaves<W>, R>(rt, &mut self.pass)
    }
}
