//! Pipes, into which notes are put and from which they are taken.

ghost use Rattle.std.specs.Prelude.{◌≡◌, ◌≤◌, ◌<◌, ◌^◌, ◌++◌, ◌∷◌, [], length, OnOk, IfErr, OnErr, IfSome, IfNone};
ghost use Rattle.flow_instance.specs.Notes.{IsNote};

use crate::ends::{PutEnd, TakeEnd};
use crate::rules::{Puts, Queue, Takes};
use crate::widths::Width;
use flow_instance::Note;
use std::marker::Model;
use std::sync::Wait;

/// A pipe, which threads share. Contracts see its identity, and how many notes it holds at most.
#[derive(Drop)]
pub struct Pipe<W: Width> {
    pub(crate) queue: Queue<W>,
}

impl<W: Width> Model for Pipe<W> {
    ghost use Rattle.batch_channel.specs.Ends.{APipe};
    ghost use Rattle.crossbeam_queue.specs.Passes.{ruled_capacity};

    ghost Value = { APipe };

    ghost view = { λ p. record { name = p.queue.table.shared.table_id; depth = ruled_capacity p.queue } };
}

impl<W: Width> Pipe<W> {
    /// Appends the note in one step, or hands it back if it found the pipe full. It never waits for a note to be taken,
    /// but it may spin while another thread is in the middle of its own step on this pipe.
    pub fn put<R: Wait>(&self, rt: &R, end: &mut PutEnd<W>, note: Note) -> Result<(), Note>
        requires pipe { end.old.name ≡ self.now.name }
        requires room { length end.old.notes < 2 ^ 61 }
        requires note { IsNote W.fields note }
        ensures pipe { end.new.name ≡ end.old.name }
        ensures put { OnOk result (end.new.notes ≡ end.old.notes ++ note ∷ []) }
        ensures handed_back { IfErr result (λ back. back ≡ note) }
        ensures unchanged { OnErr result (end.new.notes ≡ end.old.notes) }
        ensures full { OnErr result (self.now.depth ≤ length end.old.notes) }
    {
        self.queue.push_as::<Puts, R>(rt, &mut end.pass, note)?;
        end.count += 1;
        Ok(())
    }

    /// Takes the oldest note in one step, or returns None if it found the pipe empty. It never waits for a note to be
    /// put, but it may spin as `put` does.
    pub fn take<R: Wait>(&self, rt: &R, end: &mut TakeEnd<W>) -> Option<Note>
        requires pipe { end.old.name ≡ self.now.name }
        ensures pipe { end.new.name ≡ end.old.name }
        ensures taken { IfSome result (λ note. end.new.notes ≡ end.old.notes ++ note ∷ []) }
        ensures note { IfSome result (λ note. IsNote W.fields note) }
        ensures unchanged { IfNone result (end.new.notes ≡ end.old.notes) }
    {
        self.queue.pop_as::<Takes<W>, R>(rt, &mut end.pass)
    }
}
