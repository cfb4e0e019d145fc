//! The part of a text that has a fault.

ghost use Rattle.std.specs.Prelude.{◌≡◌, ◌≢◌, ◌≤◌, ◌<◌, ◌+◌, false, IfNone, IfOk, IfSome, IsTrue, length};
ghost use Rattle.text_marks.specs.Marks.{HasNoFaultPart, HasNoFaultyWord, HasOther, IsFaultMark, IsFaultPart, MayBeEmpty};
ghost use Rattle.text_marks.specs.TextParts.{AreBounds, IsInside, IsWordOf, LiesInLine, cut_text};

use crate::bounds::line_bounds;
use crate::marks::{Mark, marked_part};
use crate::trials::{Fault, has_fault_up_to, is_accepted};
use crate::words::next_word;
use pact_record::OutOfMemory;
use std::alloc::Global;
use std::str;

// Whether the text up to the mark's end has this fault, and up to its start doesn't.
fn has_fault(alloc: Global, text: &[u8], mark: &Mark, fault: Fault) -> Result<bool, OutOfMemory>
    requires { IsInside text.now mark.now.from mark.now.to }
    ensures yes { IfOk result (λ has. IsTrue has → IsFaultPart text.now mark.now fault) }
    ensures no { IfOk result (λ has. has ≡ false → fault.what ≢ 12 → HasNoFaultPart text.now mark.now.from mark.now.to fault) }
{
    if !has_fault_up_to(alloc, text, mark.to, fault)? {
        return Ok(false);
    }
    // `pact` is a faulty first line, but begins the right ones.
    if fault.what == 12 {
        let is_right = is_accepted(alloc, text, mark, marked_part(text, mark))?;
        return Ok(!is_right);
    }
    if has_fault_up_to(alloc, text, mark.from, fault)? {
        return Ok(false);
    }
    Ok(true)
}

// Whether the word has the fault. With fault 4 no word is wrong: one is missing.
fn is_faulty(alloc: Global, text: &[u8], word: &Mark, fault: Fault) -> Result<bool, OutOfMemory>
    requires { IsInside text.now word.now.from word.now.to }
    ensures yes { IfOk result (λ has. IsTrue has → IsFaultPart text.now word.now fault) }
    ensures other { IfOk result (λ has. IsTrue has → fault.what ≢ 4) }
    ensures no { IfOk result (λ has. has ≡ false → fault.what ≢ 4 → fault.what ≢ 12 → HasNoFaultPart text.now word.now.from word.now.to fault) }
{
    if fault.what == 4 {
        return Ok(false);
    }
    has_fault(alloc, text, word, fault)
}

// The length of the character that the bytes begin with, or 0 if they begin with none or with a carriage return.
fn character_length(bytes: &[u8]) -> usize
    ensures { result ≤ length bytes.now }
{
    for length in 1..5 {
        if length <= bytes.len() && str::from_utf8(&bytes[..length]).is_ok() {
            return if bytes[0] == b'\r' { 0 } else { length };
        }
    }
    0
}

// The first byte of a line that begins no character, or is a carriage return.
fn garbled_byte(text: &[u8], line: u64, start: usize, end: usize) -> Option<Mark>
    requires { IsInside text.now start end }
    ensures inside { IfSome result (IsWordOf line start end) }
    ensures one { IfSome result (λ mark. mark.to ≡ mark.from + 1) }
{
    let mut from = start;
    for at in start..end {
        if at == from {
            let length = character_length(&text[at..end]);
            if length == 0 {
                return Some(Mark {
                    line,
                    from,
                    to: from + 1,
                });
            }
            from += length;
        }
    }
    None
}

fn empty_mark(line: u64, at: usize) -> Mark
    ensures { result ≡ record { line = line; from = at; to = at } }
{
    Mark {
        line,
        from: at,
        to: at,
    }
}

// An empty mark at a place if the text up to there has the fault, otherwise at the text's end.
fn mark_after(alloc: Global, text: &[u8], fault: Fault, at: usize) -> Result<Mark, OutOfMemory>
    requires inside { at ≤ length text.now }
    requires line { LiesInLine text.now (record { line = fault.line; from = at; to = at }) }
    requires empty { MayBeEmpty text.now fault }
    requires none { HasNoFaultyWord text.now fault at }
    ensures { IfOk result (IsFaultMark text.now fault) }
{
    if has_fault_up_to(alloc, text, at, fault)? {
        Ok(empty_mark(fault.line, at))
    } else {
        Ok(empty_mark(fault.line, text.len()))
    }
}

// The first byte of a part such that the text up to its end has the fault.
fn first_byte(
    alloc: Global,
    text: &[u8],
    fault: Fault,
    start: usize,
    end: usize,
) -> Result<Option<Mark>, OutOfMemory>
    requires inside { IsInside text.now start end }
    requires before { HasOther (cut_text start text.now) fault }
    ensures one { IfOk result (λ found. IfSome found (λ mark. IsWordOf fault.line start end mark × (mark.to ≡ mark.from + 1) × IsFaultPart text.now mark fault)) }
    ensures none { IfOk result (λ found. IfNone found (HasOther (cut_text end text.now) fault)) }
{
    for at in start..end {
        if has_fault_up_to(alloc, text, at + 1, fault)? {
            return Ok(Some(Mark {
                line: fault.line,
                from: at,
                to: at + 1,
            }));
        }
    }
    Ok(None)
}

// A byte of the line that has the fault, although no word has it, otherwise an empty mark at a place of the line.
fn mark_line(
    alloc: Global,
    text: &[u8],
    fault: Fault,
    start: usize,
    end: usize,
    at: usize,
) -> Result<Mark, OutOfMemory>
    requires inside { IsInside text.now start end }
    requires line { AreBounds text.now fault.line start end }
    requires after { start ≤ at }
    requires before { at ≤ end }
    requires none { HasNoFaultyWord text.now fault at }
    ensures { IfOk result (IsFaultMark text.now fault) }
{
    // With these faults something is missing.
    if fault.what == 4 || fault.what == 12 {
        return mark_after(alloc, text, fault, at);
    }
    if has_fault_up_to(alloc, text, start, fault)? {
        return mark_after(alloc, text, fault, at);
    }
    // The whole line is tried first, since a text with many bytes takes long to try byte by byte.
    if !has_fault_up_to(alloc, text, end, fault)? {
        return mark_after(alloc, text, fault, at);
    }
    match first_byte(alloc, text, fault, start, end)? {
        Some(byte) => Ok(byte),
        None => mark_after(alloc, text, fault, at),
    }
}

// The first word of the line that has the fault, or an empty mark after the last one.
fn faulty_word(
    alloc: Global,
    text: &[u8],
    fault: Fault,
    start: usize,
    end: usize,
) -> Result<Mark, OutOfMemory>
    requires inside { IsInside text.now start end }
    requires line { AreBounds text.now fault.line start end }
    requires no_byte { fault.what ≢ 1 }
    ensures { IfOk result (IsFaultMark text.now fault) }
{
    let mut at = start;
    while let Some(word) = next_word(text, fault.line, at, end) {
        if is_faulty(alloc, text, &word, fault)? {
            return Ok(word);
        }
        at = word.to;
    }
    mark_line(alloc, text, fault, start, end, at)
}

// The byte of the line that has fault 1, or an empty mark at the line's end.
fn faulty_byte(
    alloc: Global,
    text: &[u8],
    fault: Fault,
    start: usize,
    end: usize,
) -> Result<Mark, OutOfMemory>
    requires inside { IsInside text.now start end }
    requires line { AreBounds text.now fault.line start end }
    requires byte { fault.what ≡ 1 }
    ensures { IfOk result (IsFaultMark text.now fault) }
{
    if let Some(byte) = garbled_byte(text, fault.line, start, end) {
        if has_fault(alloc, text, &byte, fault)? {
            return Ok(byte);
        }
    }
    mark_line(alloc, text, fault, start, end, end)
}

// The part of a line that has the fault.
fn mark_in_line(
    alloc: Global,
    text: &[u8],
    fault: Fault,
    start: usize,
    end: usize,
) -> Result<Mark, OutOfMemory>
    requires inside { IsInside text.now start end }
    requires line { AreBounds text.now fault.line start end }
    ensures { IfOk result (IsFaultMark text.now fault) }
{
    if fault.what == 1 {
        return faulty_byte(alloc, text, fault, start, end);
    }
    faulty_word(alloc, text, fault, start, end)
}

/// The part of the text that has the fault that `read_program` reports: the first word such that the text up to that
/// word has the fault. For fault 1 it is the byte that isn't UTF-8, or the carriage return. It is empty if a word is
/// missing: after the line's last word for fault 4, and for fault 12 after a `pact` alone. If the text ends too early
/// (fault 10 or 12), it is empty, at the text's end, where a line is missing; a text that lacks its last line feed
/// should get one before a word is inserted there.
pub fn fault_mark(alloc: Global, text: &[u8], line: u64, what: u32) -> Result<Mark, OutOfMemory>
    ensures line { IfOk result (λ mark. mark.line ≡ line) }
    ensures marked { IfOk result (IsFaultMark text.now (record { line = line; what = what })) }
{
    let fault = Fault { line, what };
    if !has_fault_up_to(alloc, text, text.len(), fault)? {
        return Ok(empty_mark(line, text.len()));
    }
    match line_bounds(text, line) {
        Some((start, end)) => mark_in_line(alloc, text, fault, start, end),
        None => Ok(empty_mark(line, text.len())),
    }
}
