ghost use Rattle.std.specs.Prelude.{◌≡◌, ◌≤◌, ◌<◌, ◌↔◌, length, OnOk, OnErr, IfOk, IsOkAnd, IsTrue, IsOk, IsErr};
ghost use Rattle.pact_outside.specs.Outside.{HasCause, Takes};
ghost use Rattle.pact_outside.specs.Memory.{new_sink, after_reserve, write_fails, write_count, after_write};

use crate::{FailList, Failed, Sink};
use pact_record::OutOfMemory;
use std::alloc::Global;
use std::marker::Model;

/// A sink into memory. It takes at most `most` bytes at a time, and none if there is no room. It fails at the calls
/// that are listed, counted from 1. A write takes no memory: `reserve` makes the room.
#[derive(Debug, Drop)]
pub struct MemSink {
    held: Vec<u8>,
    room: usize,
    most: usize,
    fail: FailList,
    calls: u64,
    faults: u64,
}

impl Model for MemSink {
    ghost use Rattle.std.specs.Prelude.{◌+◌, ◌≤◌, ◌<◌, vec_len, vec_capacity};
    ghost use Rattle.pact_outside.specs.Memory.{SinkState};

    ghost Value = { SinkState };

    ghost view = { λ s. record { taken = s.held.items; room = s.room; most = s.most; fail = s.fail; calls = s.calls; faults = s.faults } };

    ghost invariant = { λ s. (vec_len s.held + s.room ≤ vec_capacity s.held) × (0 < s.most) };
}

impl MemSink {
    /// It allocates nothing, so it never fails.
    pub fn new(alloc: Global, most: usize, fail: FailList) -> Result<MemSink, OutOfMemory>
        requires { 0 < most }
        ensures { IsOkAnd result (λ sink. sink ≡ new_sink most fail) }
    {
        Ok(MemSink {
            held: Vec::new(alloc),
            room: 0,
            most,
            fail,
            calls: 0,
            faults: 0,
        })
    }

    /// Makes room for that many bytes from here on.
    pub fn reserve(&mut self, bytes: usize) -> Result<(), OutOfMemory>
        ensures ok { OnOk result (self.new ≡ after_reserve self.old bytes) }
        ensures err { OnErr result (self.new ≡ self.old) }
        ensures enough { bytes ≤ self.old.room → IsOk result }
    {
        if self.room < bytes {
            self.held.reserve(bytes)?;
            self.room = bytes;
        }
        Ok(())
    }

    pub fn taken(&self) -> &[u8]
        ensures { result.now ≡ self.now.taken }
    {
        &self.held
    }

    pub fn faults(&self) -> u64
        ensures { result ≡ self.now.faults }
    {
        self.faults
    }
}

impl Sink for MemSink {
    ghost use Rattle.std.specs.Prelude.{Some};

    ghost taken = { λ s. Some s.taken };

    ghost faults = { λ s. s.faults };

    fn write(&mut self, piece: &[u8]) -> Result<usize, Failed>
        requires { 0 < length piece.now }
        ensures fails { IsErr result ↔ IsTrue (write_fails self.old) }
        ensures count { IfOk result (λ count. count ≡ write_count self.old piece.now) }
        ensures after { self.new ≡ after_write self.old piece.now }

        ensures takes { IfOk result (λ count. Takes (Some self.old.taken) (Some self.new.taken) piece.now count) }
        ensures nothing { OnErr result (Some self.new.taken ≡ Some self.old.taken) }
        ensures cause { HasCause self.old.faults self.new.faults result }
    {
        self.calls = self.calls.saturating_add(1);
        if self.fail.contains(self.calls) || self.room == 0 {
            self.faults = self.faults.saturating_add(1);
            return Err(Failed);
        }
        let count = piece.len().min(self.most).min(self.room);
        self.room -= count;
        match self.held.extend_from_slice(&piece[..count]) {
            Ok(()) => Ok(count),
            Err(_) => unreachable!(),
        }
    }
}
