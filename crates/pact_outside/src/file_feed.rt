ghost use Rattle.std.specs.Prelude.{◌≡◌, ◌≤◌, ◌<◌, true, false, length, take, IfOk, OnErr};
ghost use Rattle.std.specs.Io.KnownBytes.{Consumes, IsAtEnd, Keeps};
ghost use Rattle.pact_outside.specs.Outside.{AfterOpen, AfterRead};
ghost use Rattle.pact_outside.specs.Adapters.{after_call, shown_by_files};

use crate::{Failed, Feed};
use pact_record::Bytes;
use std::io::Read;
use std::marker::Model;
use std::rt::Files;
use std::{fs, str};

/// A feed from the system's files. It opens a name that is UTF-8 as a path. Its model doesn't include the contents of
/// files.
#[derive(Drop)]
pub struct FileFeed<'a, R: Files> {
    rt: &'a R,
    name: Option<Bytes>,
    file: Option<R::File>,
    faults: u64,
}

impl<'a, R: Files> Model for FileFeed<'a, R> {
    ghost use Rattle.std.specs.Prelude.{[], unwrap_or, is_some};
    ghost use Rattle.pact_outside.specs.Adapters.{FileState};

    ghost Value = { FileState };

    ghost view = { λ f. record { name = unwrap_or f.name []; is_open = is_some f.file; faults = f.faults } };
}

impl<'a, R: Files> FileFeed<'a, R> {
    pub fn new(rt: &'a R) -> FileFeed<'a, R>
        ensures no_fault { result.faults ≡ 0 }
        ensures closed { result.is_open ≡ false }
    {
        FileFeed {
            rt,
            name: None,
            file: None,
            faults: 0,
        }
    }

    pub fn faults(&self) -> u64
        ensures { result ≡ self.now.faults }
    {
        self.faults
    }
}

// Reads the next bytes into the beginning of `buf`: none exactly at the reader's end.
fn read_next<S: Read>(from: &mut S, buf: &mut [u8]) -> Result<usize, Failed>
    requires { 0 < length buf.old }
    ensures fits { IfOk result (λ count. count ≤ length buf.new) }
    ensures same_room { length buf.new ≡ length buf.old }
    ensures bytes { IfOk result (λ count. Consumes (S.remaining from.old) (S.remaining from.new) (take count buf.new)) }
    ensures end { IfOk result (λ count. count ≡ 0 → IsAtEnd (S.remaining from.new)) }
    ensures failed { OnErr result (Keeps (S.remaining from.old) (S.remaining from.new)) }
{
    match from.read(buf) {
        Ok(count) => Ok(count),
        Err(_) => Err(Failed),
    }
}

impl<'a, R: Files> Feed for FileFeed<'a, R> {
    ghost shows = { shown_by_files };

    fn open(&mut self, name: Bytes) -> Result<(), Failed>
        ensures after { self.new ≡ after_call self.old name result }

        ensures shown { AfterOpen (shown_by_files self.old) (shown_by_files self.new) name result }
    {
        // closed first, so that no more than one file is open
        self.file = None;
        self.file = match str::from_utf8(name.bytes()) {
            Ok(path) => fs::open(self.rt, path).ok(),
            Err(_) => None,
        };
        self.name = Some(name);
        if self.file.is_none() {
            self.faults = self.faults.saturating_add(1);
            return Err(Failed);
        }
        Ok(())
    }

    fn read(&mut self, buf: &mut [u8]) -> Result<usize, Failed>
        requires open { self.old.is_open ≡ true }
        requires room { 0 < length buf.old }
        ensures after { self.new ≡ after_call self.old self.old.name result }

        ensures shown { AfterRead (shown_by_files self.old) (shown_by_files self.new) (length buf.old) buf.new result }
    {
        if let Some(file) = &mut self.file {
            if let Ok(count) = read_next(file, buf) {
                return Ok(count);
            }
        }
        self.file = None;
        self.faults = self.faults.saturating_add(1);
        Err(Failed)
    }
}
