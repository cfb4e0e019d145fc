//! What the reader of programs reports of a text, and of a text that is cut after a word.

ghost use Rattle.std.specs.Prelude.{◌≡◌, ◌≢◌, ◌≤◌, ◌++◌, IfOk, Some, codes, length};
ghost use Rattle.std.specs.Bool.{OnFalse, OnTrue};
ghost use Rattle.text_marks.specs.Marks.{HasFirst, TellsAccepted, TellsFault, is_beyond};
ghost use Rattle.text_marks.specs.TextParts.{IsInside, cut_text, cut_with};

use crate::bounds::line_number;
use crate::marks::Mark;
use crate::placing::cut_with;
use pact_record::{Bytes, OutOfMemory};
use program_text::read_program;
use std::alloc::Global;
use text_lines::TextFault;

/// The number of a faulty line, from 1, and of what is wrong with it.
#[derive(Clone, Copy, Debug, PartialEq, Eq)]
pub struct Fault {
    pub line: u64,
    pub what: u32,
}

/// The first fault of a text; `None` if it is the text of a program.
pub fn first_fault(alloc: Global, text: &[u8]) -> Result<Option<Fault>, OutOfMemory>
    ensures { IfOk result (HasFirst text.now) }
{
    match read_program(alloc, text) {
        Ok(_) => Ok(None),
        Err(TextFault::At { line, what }) => Ok(Some(Fault { line, what })),
        Err(TextFault::Memory) => Err(OutOfMemory),
    }
}

/// The first fault of the text up to a place.
pub fn fault_up_to(alloc: Global, text: &[u8], at: usize) -> Result<Option<Fault>, OutOfMemory>
    requires { at ≤ length text.now }
    ensures { IfOk result (HasFirst (cut_text at text.now)) }
{
    let mut cut = Bytes::from_slice(alloc, &text[..at])?;
    cut.extend_from_slice(b" \n\n")?;
    first_fault(alloc, cut.bytes())
}

fn is_same(found: Option<Fault>, fault: Fault) -> bool
    ensures yes { OnTrue result (found ≡ Some fault) }
    ensures no { OnFalse result (found ≢ Some fault) }
{
    match found {
        Some(other) => other.line == fault.line && other.what == fault.what,
        None => false,
    }
}

/// Whether this is the first fault of the text up to a place.
pub fn has_fault_up_to(
    alloc: Global,
    text: &[u8],
    at: usize,
    fault: Fault,
) -> Result<bool, OutOfMemory>
    requires { at ≤ length text.now }
    ensures { IfOk result (λ has. TellsFault (cut_text at text.now) fault has) }
{
    let found = fault_up_to(alloc, text, at)?;
    Ok(is_same(found, fault))
}

// The first fault of the text before the mark and the word.
fn fault_with(
    alloc: Global,
    text: &[u8],
    mark: &Mark,
    word: &[u8],
) -> Result<Option<Fault>, OutOfMemory>
    requires { IsInside text.now mark.now.from mark.now.to }
    ensures { IfOk result (HasFirst (cut_with mark.now.from mark.now.to word.now text.now)) }
{
    let cut = cut_with(alloc, text, mark, word)?;
    first_fault(alloc, cut.bytes())
}

// The word and one more, the number 1.
fn and_one(alloc: Global, word: &[u8]) -> Result<Bytes, OutOfMemory>
    ensures { IfOk result (λ words. words ≡ word.now ++ codes " 1") }
{
    let mut words = Bytes::from_slice(alloc, word)?;
    words.extend_from_slice(b" 1")?;
    Ok(words)
}

/// Whether a fault isn't one of this line's words so far: there is none, it is further on, or a word is missing.
pub fn is_beyond(line: u64, fault: Option<Fault>) -> bool
    ensures { result ≡ is_beyond line fault }
{
    match fault {
        None => true,
        Some(fault) => line < fault.line || (line == fault.line && fault.what == 4),
    }
}

/// Whether `word` instead of the marked part has no fault: the reader reports none in the text before the mark and the
/// word, or only that another word is missing after it, or that the text ends too early. A fault before the marked line
/// counts as a fault.
pub fn is_accepted(
    alloc: Global,
    text: &[u8],
    mark: &Mark,
    word: &[u8],
) -> Result<bool, OutOfMemory>
    requires { IsInside text.now mark.now.from mark.now.to }
    ensures { IfOk result (TellsAccepted mark.now.from mark.now.to word.now text.now) }
{
    let line = line_number(text, mark.from);
    let fault = fault_with(alloc, text, mark, word)?;
    // A line that is only `pact` isn't a first line, but begins one.
    if is_same(fault, Fault { line, what: 12 }) {
        let words = and_one(alloc, word)?;
        let completed = fault_with(alloc, text, mark, words.bytes())?;
        return Ok(is_beyond(line, completed));
    }
    Ok(is_beyond(line, fault))
}
