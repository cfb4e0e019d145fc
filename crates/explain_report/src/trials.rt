//! Other words at a place of a program's text, tried by the readers.

ghost use Rattle.std.specs.Prelude.{◌≡◌};

use explain_words::pages::part;
use explain_words::places::line_around;
use explain_words::{Page, Part};
use pact_load::{Refusal, program_of};
use pact_record::{Bytes, OutOfMemory};
use std::alloc::Global;
use text_marks::{Mark, first_fault, with_word};

/// The place of a mark.
pub fn part_of(mark: &Mark) -> Part
    ensures line { result.line ≡ mark.now.line }
    ensures from { result.from ≡ mark.now.from }
{
    Part {
        line: mark.line,
        from: mark.from,
        to: mark.to,
    }
}

/// The mark of a part.
pub fn mark_of(there: &Part) -> Mark
    ensures from { result.from ≡ there.now.from }
    ensures to { result.to ≡ there.now.to }
{
    Mark {
        line: there.line,
        from: there.from,
        to: there.to,
    }
}

/// The text with a word instead of a part.
pub fn mended(alloc: Global, text: &[u8], there: &Part, word: &[u8]) -> Result<Bytes, OutOfMemory> {
    if there.from <= there.to && there.to <= text.len() {
        with_word(alloc, text, &mark_of(there), word)
    } else {
        Bytes::from_slice(alloc, text)
    }
}

/// Whether the text with the word has its first text fault on a later line, or none.
pub fn mends(alloc: Global, text: &[u8], there: &Part, word: &[u8]) -> Result<bool, OutOfMemory> {
    let changed = mended(alloc, text, there, word)?;
    match first_fault(alloc, changed.bytes())? {
        None => Ok(true),
        Some(fault) => Ok(there.line < fault.line),
    }
}

/// Whether the program with the word is accepted, or breaks another rule than the one that `line` reports.
pub fn heals(
    alloc: Global,
    text: &[u8],
    there: &Part,
    word: &[u8],
    line: &[u8],
) -> Result<bool, OutOfMemory> {
    let changed = mended(alloc, text, there, word)?;
    match program_of(alloc, b"program", changed.bytes()) {
        Ok(_) => Ok(true),
        Err(Refusal::OutOfMemory) => Err(OutOfMemory),
        Err(
            Refusal::Decided {
                status,
                line: other,
            },
        ) => Ok(status == 6 && other.bytes() != line),
        Err(_) => Ok(false),
    }
}

/// Whether the text with the word spells a program.
pub fn makes_program(
    alloc: Global,
    text: &[u8],
    there: &Part,
    word: &[u8],
) -> Result<bool, OutOfMemory> {
    let changed = mended(alloc, text, there, word)?;
    match program_of(alloc, b"program", changed.bytes()) {
        Ok(_) => Ok(true),
        Err(Refusal::OutOfMemory) => Err(OutOfMemory),
        Err(_) => Ok(false),
    }
}

/// Appends the part's line with the word instead of the part.
pub fn put_mended(
    alloc: Global,
    page: &mut Page,
    text: &[u8],
    there: &Part,
    word: &[u8],
) -> Result<(), OutOfMemory> {
    let (start, stop) = line_around(text, there.from);
    let mut line = Page::new(alloc);
    line.put(part(text, start, there.from))?;
    line.put(word)?;
    line.put(part(text, there.to, stop))?;
    page.put(b"cure: ")?;
    page.put_shown(line.bytes().trim_ascii(), 160)?;
    page.put(b"\n")
}
