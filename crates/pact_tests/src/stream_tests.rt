//! What a feed reads of a real file, what writers take through a sink over them, and that each write is flushed.

use pact_outside::{Failed, Feed, FileFeed, Sink, StreamSink};
use pact_record::Bytes;
use std::test::Fail;
use std::{env, fs, io, process};

#[test]
fn real_files_are_read(rt: HostRuntime) -> Result<(), Fail> {
    let name = format!(in rt.alloc(); "pact_outside-{}", process::id(rt.process()))?;
    let path = env::temp_dir(&rt)?.join(rt.alloc(), &name)?;
    fs::write(&rt, &path, "real")?;
    let mut feed = FileFeed::new(&rt);
    let opened = feed.open(Bytes::from_slice(rt.alloc(), path.as_str().as_bytes())?);
    fs::remove_file(&rt, &path)?;
    opened?;
    let mut buf = [0; 8];
    let count = feed.read(&mut buf)?;
    assert_eq!(rt; buf.get(..count), Some(b"real".as_slice()));
    assert_eq!(rt; feed.read(&mut buf)?, 0);
    for missing in [path.as_str().as_bytes(), b"\xff"] {
        let answer = feed.open(Bytes::from_slice(rt.alloc(), missing)?);
        assert_eq!(rt; answer, Err(Failed));
    }
    assert_eq!(rt; feed.faults(), 2);
    Ok(())
}

#[test]
fn writers_take_what_is_written(rt: HostRuntime) -> Result<(), Fail> {
    let mut held = Vec::new(rt.alloc());
    let mut sink = StreamSink::new(&mut held);
    assert_eq!(rt; sink.write(b"text")?, 4);
    assert_eq!(rt; sink.faults(), 0);
    assert_eq!(rt; held.as_slice(), b"text".as_slice());
    let mut place = [0; 3];
    let mut full = StreamSink::new(place.as_mut_slice());
    assert_eq!(rt; full.write(b"text")?, 3);
    assert_eq!(rt;
        full.write(b"t"),
        Err(Failed),
        "a writer that takes nothing"
    );
    assert_eq!(rt; full.faults(), 1);
    Ok(())
}

// A writer without a buffer that counts how often it is flushed. The flush of that number fails.
#[derive(Debug, Drop)]
struct Flushed {
    flushes: u64,
    fails_at: u64,
}

impl io::Write for Flushed {
    fn write(&mut self, buf: &[u8]) -> io::Result<usize> {
        Ok(buf.len())
    }

    fn flush(&mut self) -> io::Result<()> {
        self.flushes = self.flushes.saturating_add(1);
        if self.flushes == self.fails_at {
            return Err(io::ErrorKind::BrokenPipe.into());
        }
        Ok(())
    }
}

#[test]
fn each_write_is_flushed(rt: HostRuntime) -> Result<(), Fail> {
    let mut sink = StreamSink::new(Flushed {
        flushes: 0,
        fails_at: 3,
    });
    for (flushes, want) in [(1, Ok(2)), (2, Ok(2)), (3, Err(Failed)), (4, Ok(2))] {
        assert_eq!(rt; sink.write(b"5\n"), want);
        assert_eq!(rt; sink.writer().flushes, flushes);
    }
    assert_eq!(rt; sink.faults(), 1);
    Ok(())
}
