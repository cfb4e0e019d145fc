ghost use Rattle.std.specs.Prelude.{◌≡◌, ◌<◌, ◌↔◌, true, length, is_some, OnOk, OnErr, IfOk, IsTrue, IsErr};
ghost use Rattle.pact_outside.specs.Outside.{AfterOpen, AfterRead};
ghost use Rattle.pact_outside.specs.Memory.{new_feed, shown_from_memory, open_fails, after_open, read_fails, read_count, buffer_after_read, after_read};

use crate::{FailList, Failed, Feed, MemFiles};
use pact_record::Bytes;
use std::marker::Model;

// Where the next read begins.
#[derive(Clone, Copy, Debug)]
struct Place {
    file: usize,
    at: usize,
}

/// A feed from memory. It returns at most `most` bytes at a time, and fails at the calls that are listed; opens and
/// reads are counted together, from 1.
#[derive(Debug, Drop)]
pub struct MemFeed {
    files: MemFiles,
    most: usize,
    fail: FailList,
    calls: u64,
    name: Option<Bytes>,
    place: Option<Place>,
    faults: u64,
}

impl Model for MemFeed {
    ghost use Rattle.std.specs.Prelude.{◌<◌, ◌≤◌, [], length, drop, unwrap_or, option_map};
    ghost use Rattle.std.specs.Option.{ForSome};
    ghost use Rattle.pact_outside.specs.Memory.{FeedState, bytes_at};

    ghost Value = { FeedState };

    ghost view = { λ f. record {
      files = f.files;
      most = f.most;
      fail = f.fail;
      calls = f.calls;
      name = unwrap_or f.name [];
      left = option_map (λ p. drop p.at (bytes_at f.files p.file)) f.place;
      faults = f.faults;
    } };

    ghost invariant = { λ f. (0 < f.most)
        × ForSome f.place (λ p. (p.file < length f.files) × (p.at ≤ length (bytes_at f.files p.file))) };
}

impl MemFeed {
    pub fn new(files: MemFiles, most: usize, fail: FailList) -> MemFeed
        requires { 0 < most }
        ensures { result ≡ new_feed files most fail }
    {
        MemFeed {
            files,
            most,
            fail,
            calls: 0,
            name: None,
            place: None,
            faults: 0,
        }
    }

    pub fn faults(&self) -> u64
        ensures { result ≡ self.now.faults }
    {
        self.faults
    }
}

impl Feed for MemFeed {
    ghost shows = { shown_from_memory };

    fn open(&mut self, name: Bytes) -> Result<(), Failed>
        ensures fails { IsErr result ↔ IsTrue (open_fails self.old name) }
        ensures after { self.new ≡ after_open self.old name }

        ensures shown { AfterOpen (shown_from_memory self.old) (shown_from_memory self.new) name result }
    {
        self.calls = self.calls.saturating_add(1);
        let found = if self.fail.contains(self.calls) {
            None
        } else {
            self.files.find(name.bytes())
        };
        self.name = Some(name);
        let Some(file) = found else {
            self.place = None;
            self.faults = self.faults.saturating_add(1);
            return Err(Failed);
        };
        self.place = Some(Place { file, at: 0 });
        Ok(())
    }

    fn read(&mut self, buf: &mut [u8]) -> Result<usize, Failed>
        requires open { is_some self.old.left ≡ true }
        requires room { 0 < length buf.old }
        ensures fails { IsErr result ↔ IsTrue (read_fails self.old) }
        ensures count { IfOk result (λ count. count ≡ read_count self.old (length buf.old)) }
        ensures given { OnOk result (buf.new ≡ buffer_after_read self.old buf.old) }
        ensures nothing { OnErr result (buf.new ≡ buf.old) }
        ensures after { self.new ≡ after_read self.old (length buf.old) }

        ensures shown { AfterRead (shown_from_memory self.old) (shown_from_memory self.new) (length buf.old) buf.new result }
    {
        self.calls = self.calls.saturating_add(1);
        let place = if self.fail.contains(self.calls) {
            None
        } else {
            self.place
        };
        let Some(Place { file, at }) = place else {
            self.place = None;
            self.faults = self.faults.saturating_add(1);
            return Err(Failed);
        };
        let rest = &self.files.at(file).bytes.bytes()[at..];
        let count = buf.len().min(self.most).min(rest.len());
        buf[..count].copy_from_slice(&rest[..count]);
        self.place = Some(Place {
            file,
            at: at + count,
        });
        Ok(count)
    }
}
