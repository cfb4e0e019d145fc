//! Reads one line of a text into its words, from left to right.

ghost use Rattle.std.specs.Prelude.{◌≡◌, ◌<◌, ◌≤◌, ◌∷◌, List, ℕ, IfNone, IfOk, IfSome, None, Some, length, false, IfErr, IsUtf8};
ghost use Rattle.std.specs.Bool.{OnFalse, OnTrue};
ghost use Rattle.text_lines.specs.LineGrammar.{IsWordEnd, escaped_byte, HasLineFault, has_return, IsGarbled, IsLine, LineWord};
ghost use Rattle.text_lines.specs.LineReading.{Chain, HasFound, IsByte, IsStuck, IsWordAt, IsWordStart, byte_at, literal_byte, plain_byte, GivesWords, HasCause, TellsFault};
ghost use Rattle.text_lines.specs.CanonicalLines.{AreLineWords, canonical_line};
ghost use Rattle.text_lines.specs.LineGrammar as grammar;
ghost use Rattle.text_lines.specs.LineReading as reading;

use crate::faults::NotRead;
use crate::line_words::{LineWord, LineWords};
use pact_record::{Bytes, MAX_TEXT, OutOfMemory};
use std::alloc::Global;
use std::str;

fn ends_word(byte: u8) -> bool
    ensures { result ≡ grammar.ends_word byte }
{
    matches!(byte, b' ' | b'\t' | b'#')
}

// The byte that an escape denotes, by the byte after its backslash.
fn meaning(byte: u8) -> Option<u8>
    ensures { result ≡ escaped_byte byte }
{
    match byte {
        b'\\' => Some(b'\\'),
        b'"' => Some(b'"'),
        b'n' => Some(b'\n'),
        b'r' => Some(b'\r'),
        b't' => Some(b'\t'),
        _ => None,
    }
}

// The line after its leading blanks.
fn behind_gap(line: &[u8]) -> &[u8]
    ensures { result.now ≡ reading.behind_gap line.now }
{
    let mut rest = line;
    while let Some((b' ' | b'\t', behind)) = rest.split_first() {
        rest = behind;
    }
    rest
}

fn is_word_end(line: &[u8]) -> bool
    ensures yes { OnTrue result (IsWordEnd line.now) }
    ensures no { OnFalse result (IsWordStart line.now) }
{
    match line.first() {
        Some(byte) => ends_word(*byte),
        None => true,
    }
}

// The next byte of a plain word, and what follows it.
fn plain_byte(line: &[u8]) -> Option<(u8, &[u8])>
    ensures some { IfSome result (λ r. plain_byte line.now ≡ Some (r.0, r.1.now)) }
    ensures none { IfNone result (plain_byte line.now ≡ None) }
    ensures shorter { IfSome result (λ r. length r.1.now < length line.now) }
{
    match line.split_first() {
        Some((first, rest)) if !ends_word(*first) => Some((*first, rest)),
        _ => None,
    }
}

// The next byte that a literal denotes, and what follows that byte's spelling.
fn literal_byte(line: &[u8]) -> Option<(u8, &[u8])>
    ensures some { IfSome result (λ r. literal_byte line.now ≡ Some (r.0, r.1.now)) }
    ensures none { IfNone result (literal_byte line.now ≡ None) }
    ensures shorter { IfSome result (λ r. length r.1.now < length line.now) }
{
    let (first, rest) = line.split_first()?;
    match *first {
        b'\\' => {
            let (escape, rest) = rest.split_first()?;
            Some((meaning(*escape)?, rest))
        }
        b'"' | b'\r' => None,
        byte => Some((byte, rest)),
    }
}

// The next byte of a word, and what follows it.
fn next_byte(is_literal: bool, line: &[u8]) -> Option<(u8, &[u8])>
    ensures some { IfSome result (λ r. IsByte is_literal line.now r.0 r.1.now) }
    ensures none { IfNone result (byte_at is_literal line.now ≡ None) }
    ensures shorter { IfSome result (λ r. length r.1.now < length line.now) }
{
    if is_literal {
        literal_byte(line)
    } else {
        plain_byte(line)
    }
}

// The longest run of bytes of a word, and what follows it.
fn word_bytes(alloc: Global, is_literal: bool, line: &[u8]) -> Result<(Bytes, &[u8]), OutOfMemory>
    ensures bytes { IfOk result (λ r. Chain (IsByte is_literal) line.now r.0 r.1.now) }
    ensures no_more { IfOk result (λ r. byte_at is_literal r.1.now ≡ None) }
{
    let mut bytes = Bytes::new(alloc);
    let mut rest = line;
    loop {
        let Some((byte, behind)) = next_byte(is_literal, rest) else {
            return Ok((bytes, rest));
        };
        bytes.push(byte)?;
        rest = behind;
    }
}

// The line after a literal's closing quotation mark, if a word may end there.
fn behind_literal(line: &[u8]) -> Option<&[u8]>
    ensures some { IfSome result (λ rest. (line.now ≡ 34 ∷ rest.now) × IsWordEnd rest.now) }
    ensures none { IfNone result ((rest : List ℕ) → line.now ≡ 34 ∷ rest → IsWordStart rest) }
{
    match line.split_first() {
        Some((b'"', rest)) if is_word_end(rest) => Some(rest),
        _ => None,
    }
}

// The word that a line begins with, and what follows it.
fn next_word(alloc: Global, line: &[u8]) -> Result<Option<(LineWord, &[u8])>, OutOfMemory>
    requires { IsWordStart line.now }
    ensures word { IfOk result (λ found. IfSome found (λ r. IsWordAt line.now r.0 r.1.now)) }
    ensures none { IfOk result (λ found. IfNone found (IsStuck IsWordAt line.now)) }
{
    if line[0] != b'"' {
        let (bytes, rest) = word_bytes(alloc, false, line)?;
        return Ok(Some((LineWord::Plain(bytes), rest)));
    }
    let (bytes, rest) = word_bytes(alloc, true, &line[1..])?;
    match behind_literal(rest) {
        Some(behind) if bytes.len() <= MAX_TEXT => Ok(Some((LineWord::Literal(bytes), behind))),
        _ => Ok(None),
    }
}

// The words that spell a line, if any do.
fn scan(alloc: Global, line: &[u8]) -> Result<Option<LineWords>, OutOfMemory>
    ensures { IfOk result (λ found. HasFound found line.now) }
{
    let mut words = LineWords::new(alloc);
    let mut rest = line;
    loop {
        let next = behind_gap(rest);
        // After blanks, this is the line's end or a comment.
        if is_word_end(next) {
            return Ok(Some(words));
        }
        let Some((word, behind)) = next_word(alloc, next)? else {
            return Ok(None);
        };
        words.push(word)?;
        rest = behind;
    }
}

fn is_garbled(line: &[u8]) -> bool
    ensures garbled { OnTrue result (IsGarbled line.now) }
    ensures clean { OnFalse result (IsUtf8 line.now × (has_return line.now ≡ false)) }
{
    str::from_utf8(line).is_err() || line.contains(&b'\r')
}

/// The words of a line, which is given without its line end. Fault 1: the line isn't UTF-8, or has a carriage return.
/// Fault 2: a literal isn't closed, has an unknown escape, is longer than `MAX_TEXT` bytes, or is followed by something
/// other than a blank or a comment.
pub fn read_words(alloc: Global, line: &[u8]) -> Result<LineWords, NotRead>
    ensures words { IfOk result (λ words. IsLine line.now words) }
    ensures fault { IfErr result (λ e. HasCause e line.now) }
    ensures words_always { (words : List LineWord) → IsLine line.now words → GivesWords result words }
    ensures fault_always { (what : ℕ) → HasLineFault what line.now → TellsFault result what }

    // The words can be written again, and a canonical line is read back as its words.
    ensures writable { IfOk result (λ words. AreLineWords words) }
    ensures canonical { (depth : ℕ) (words : List LineWord) → AreLineWords words → line.now ≡ canonical_line depth words
        → GivesWords result words }
{
    if is_garbled(line) {
        return Err(NotRead::Fault { what: 1 });
    }
    match scan(alloc, line)? {
        Some(words) => Ok(words),
        None => Err(NotRead::Fault { what: 2 }),
    }
}
