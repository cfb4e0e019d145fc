//! Writing a whole text to a sink.

ghost use Rattle.pact_top.specs.Writing.{Writes};

use pact_outside::{Failed, Sink};

/// The most bytes that one call writes.
const PIECE: usize = 65536;

/// Writes all of the bytes, in pieces.
pub fn write_all<S: Sink>(sink: &mut S, bytes: &[u8]) -> Result<(), Failed>
    ensures { Writes (S.taken sink.old) (S.taken sink.new) (S.faults sink.old) (S.faults sink.new) bytes.now result }
{
    let mut at = 0;
    while at < bytes.len() {
        let end = bytes.len().min(at.saturating_add(PIECE));
        at += sink.write(&bytes[at..end])?;
    }
    Ok(())
}
