ghost use Rattle.std.specs.Prelude.{◌≡◌, ◌<◌, length, take, IfOk};
ghost use Rattle.std.specs.Io.KnownBytes.{Appends};
ghost use Rattle.pact_outside.specs.Outside.{HasCause, Takes};
ghost use Rattle.pact_outside.specs.Adapters.{faults_after};

use crate::{Failed, Sink};
use std::io::Write;

/// A sink into a writer, such as standard output. As a `Sink` it has no known contents. For a writer with known
/// contents, `write` ensures that they grow by the bytes taken.
///
/// Each write is flushed, so that a writer with a buffer holds nothing back when the program ends. If the flush fails,
/// the bytes may have been written or not.
#[derive(Drop)]
pub struct StreamSink<W: Write> {
    to: W,
    faults: u64,
}

impl<W: Write> StreamSink<W> {
    pub fn new(to: W) -> StreamSink<W>
        ensures writer { result.to ≡ to }
        ensures no_fault { result.faults ≡ 0 }
    {
        StreamSink { to, faults: 0 }
    }

    pub fn writer(&self) -> &W
        ensures { result.now ≡ self.now.to }
    {
        &self.to
    }

    pub fn faults(&self) -> u64
        ensures { result ≡ self.now.faults }
    {
        self.faults
    }
}

impl<W: Write> Sink for StreamSink<W> {
    ghost use Rattle.std.specs.Prelude.{None};

    ghost taken = { λ _. None };

    ghost faults = { λ s. s.faults };

    fn write(&mut self, piece: &[u8]) -> Result<usize, Failed>
        requires { 0 < length piece.now }
        ensures grown { IfOk result (λ count. Appends (W.contents self.old.to) (W.contents self.new.to) (take count piece.now)) }
        ensures after { self.new.faults ≡ faults_after self.old.faults result }

        ensures takes { IfOk result (λ count. Takes None None piece.now count) }
        ensures cause { HasCause self.old.faults self.new.faults result }
    {
        if let Ok(count) = self.to.write(piece) {
            // A writer that takes nothing would be called forever.
            if count > 0 && self.to.flush().is_ok() {
                return Ok(count);
            }
        }
        self.faults = self.faults.saturating_add(1);
        Err(Failed)
    }
}
