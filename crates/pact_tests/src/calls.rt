//! Calls of the program over files in memory.

ghost use Rattle.pact_outside.specs.Memory.{shown_from_memory};

use pact_outside::{FailList, Failed, Feed, MemFeed, MemFiles, MemSink, NamedFile, Sink};
use pact_record::{Bytes, OutOfMemory};
use pact_top::{pact_alone, pact_main};
use std::alloc::Global;
use std::sync::Wait;
use std::thread::Threads;
use worker_gate::OpenGate;

/// What a call left.
#[derive(Drop)]
pub struct Outcome {
    pub status: u8,
    pub out: MemSink,
    pub err: MemSink,
    pub feed_faults: u64,
}

impl Outcome {
    /// Whether the call ended with this status and wrote these bytes to both sinks. The feed must have failed exactly
    /// if the status is 3.
    pub fn is(&self, status: u8, out: &str, err: &str) -> bool {
        self.status == status
            && self.out.taken() == out.as_bytes()
            && self.err.taken() == err.as_bytes()
            && (self.feed_faults > 0) == (status == 3)
    }
}

pub fn add_file(
    alloc: Global,
    files: &mut MemFiles,
    name: &str,
    bytes: &[u8],
) -> Result<(), OutOfMemory> {
    files.push(NamedFile {
        name: Bytes::from_slice(alloc, name.as_bytes())?,
        bytes: Bytes::from_slice(alloc, bytes)?,
    })?;
    Ok(())
}

pub fn fail_at(alloc: Global, call: u64) -> Result<FailList, OutOfMemory> {
    let mut fail = FailList::new(alloc);
    fail.push(call)?;
    Ok(fail)
}

/// A feed that logs its calls.
#[derive(Drop)]
pub struct NotingFeed {
    pub feed: MemFeed,
    /// A line for each file that was opened: its name, and a `.` for each read.
    pub calls: Bytes,
}

// A call that can't be logged leaves a text that no test expects.
fn note(calls: &mut Bytes, what: &[u8]) {
    let _ = calls.extend_from_slice(what);
}

impl Feed for NotingFeed {
    ghost shows = { λ f. shown_from_memory f.feed };

    fn open(&mut self, name: Bytes) -> Result<(), Failed> {
        note(&mut self.calls, b"\n");
        note(&mut self.calls, name.bytes());
        self.feed.open(name)
    }

    fn read(&mut self, buf: &mut [u8]) -> Result<usize, Failed> {
        note(&mut self.calls, b".");
        self.feed.read(buf)
    }
}

/// A sink that takes at most four bytes at a time, and fails at the call of this number; 0 means never.
pub fn sink(alloc: Global, fail: u64) -> Result<MemSink, OutOfMemory> {
    let mut sink = MemSink::new(alloc, 4, fail_at(alloc, fail)?)?;
    sink.reserve(65536)?;
    Ok(sink)
}

/// The status of `pact_main`, with an open gate, or of `pact_alone`.
pub fn answer<R: Threads + Wait + Sync, F: Feed, O: Sink, E: Sink>(
    rt: &R,
    on_threads: bool,
    alloc: Global,
    words: &[&str],
    feed: &mut F,
    out: &mut O,
    err: &mut E,
) -> u8 {
    if on_threads {
        return pact_main(rt, alloc, words, feed, out, err, &OpenGate);
    }
    pact_alone(alloc, words, feed, out, err)
}

/// Calls `pact_main` or `pact_alone` with these words and files. `fails` has the numbers of the calls of the feed, of
/// `out` and of `err` that fail; 0 means none.
pub fn call<R: Threads + Wait + Sync>(
    rt: &R,
    on_threads: bool,
    alloc: Global,
    words: &[&str],
    files: MemFiles,
    fails: [u64; 3],
) -> Result<Outcome, OutOfMemory> {
    let mut feed = MemFeed::new(files, 65536, fail_at(alloc, fails[0])?);
    let mut out = sink(alloc, fails[1])?;
    let mut err = sink(alloc, fails[2])?;
    let status = answer(rt, on_threads, alloc, words, &mut feed, &mut out, &mut err);
    Ok(Outcome {
        status,
        out,
        err,
        feed_faults: feed.faults(),
    })
}
