//! Prints why a call gives no answer.

ghost use Rattle.std.specs.Prelude.{◌≤◌};
ghost use Rattle.pact_load.specs.Answers.{refusal_line};
ghost use Rattle.pact_load.specs.RefusalLines.{line_of};
ghost use Rattle.pact_top.specs.Writing.{WritesLine, Writes};

use crate::writing::write_all;
use pact_load::Refusal;
use pact_outside::{Failed, Sink};

// A line that can't be written doesn't change the status.
fn tell_line<E: Sink>(err: &mut E, line: &[u8])
    ensures later { E.faults err.old ≤ E.faults err.new }
    ensures told { WritesLine (E.taken err.old) (E.taken err.new) (E.faults err.old) (E.faults err.new) line.now }
{
    match write_all(err, line) {
        Ok(()) | Err(Failed) => {}
    }
}

fn write_unreadable<E: Sink>(err: &mut E, name: &[u8]) -> Result<(), Failed>
    ensures { Writes (E.taken err.old) (E.taken err.new) (E.faults err.old) (E.faults err.new) (line_of 3 name.now) result }
{
    write_all(err, b"cannot read ")?;
    write_all(err, name)?;
    write_all(err, b"\n")
}

fn tell_unreadable<E: Sink>(err: &mut E, name: &[u8])
    ensures later { E.faults err.old ≤ E.faults err.new }
    ensures told { WritesLine (E.taken err.old) (E.taken err.new) (E.faults err.old) (E.faults err.new) (line_of 3 name.now) }
{
    match write_unreadable(err, name) {
        Ok(()) | Err(Failed) => {}
    }
}

/// Prints the reason in one line. If a certificate states other sets or another plan, further lines show both.
pub fn tell<E: Sink>(err: &mut E, refusal: &Refusal)
    ensures later { E.faults err.old ≤ E.faults err.new }
    ensures told { WritesLine (E.taken err.old) (E.taken err.new) (E.faults err.old) (E.faults err.new) (refusal_line refusal.now) }
{
    match refusal {
        Refusal::OutOfMemory => tell_line(err, b"out of memory\n"),
        Refusal::Usage => tell_line(err, b"usage: pact COMMAND ARGUMENTS\n"),
        Refusal::CannotRead(name) => tell_unreadable(err, name.bytes()),
        Refusal::CannotWrite => tell_line(err, b"cannot write\n"),
        Refusal::Decided { line, .. } => tell_line(err, line.bytes()),
    }
}
