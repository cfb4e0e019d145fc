//! The summary of a drill's run.

ghost use Rattle.std.specs.Prelude.{◌≡◌, ◌++◌, IfOk, OnOk};
ghost use Rattle.drill_program.specs.Summary as specs;

use itoa::Buffer;
use pact_record::{Bytes, OutOfMemory};
use std::alloc::Global;

#[tactic(auto, unfolding(crate::specs::Summary::check_of))]
fn check_of(bytes: &[u8]) -> u64
    ensures { result ≡ specs.check_of bytes.now }
{
    let mut check: u64 = 0;
    for byte in bytes {
        check = check.wrapping_mul(31).wrapping_add(u64::from(*byte));
    }
    check
}

fn push_line(text: &mut Bytes, word: &[u8], number: u64) -> Result<(), OutOfMemory>
    ensures { OnOk result (text.new ≡ text.old ++ specs.line word.now number) }
{
    let mut digits = Buffer::new();
    text.extend_from_slice(word)?;
    text.extend_from_slice(digits.format(number).as_bytes())?;
    text.extend_from_slice(b"\n")
}

/// How many rows went in, how many came out, and a check of the bytes that they are written as. Out of memory is the
/// only error.
pub fn summary_text(alloc: Global, rows: u64, out: u64, lines: &[u8]) -> Result<Bytes, OutOfMemory>
    ensures { IfOk result (λ text. text ≡ specs.summary_text rows out lines.now) }
{
    let mut text = Bytes::new(alloc);
    push_line(&mut text, b"rows ", rows)?;
    push_line(&mut text, b"out ", out)?;
    push_line(&mut text, b"check ", check_of(lines))?;
    Ok(text)
}
