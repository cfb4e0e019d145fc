//! Where the words of a line begin and end.

ghost use Rattle.std.specs.Prelude.{◌≡◌, ◌≤◌, ◌<◌, ◌&&◌, ◌==◌, not, IfNone, IfSome, IfOk, drop, length};
ghost use Rattle.std.specs.Bool.{OnFalse, OnTrue};
ghost use Rattle.text_lines.specs.LineGrammar.{IsComment, ends_word, is_blank};
ghost use Rattle.text_marks.specs.LineParts.{AreAllWords, HasNoWord, IsNextWord};
ghost use Rattle.text_marks.specs.Scanning.{BeginsWord, HasGap, HasLiteral, HasPlain, HasWord, IsBehindGap};
ghost use Rattle.text_marks.specs.TextParts.{AreWordsOf, IsInside, IsWordOf};

use crate::bounds::line_bounds;
use crate::marks::Mark;
use pact_record::OutOfMemory;
use std::alloc::Global;

fn is_blank(byte: u8) -> bool
    ensures { result ≡ is_blank byte }
{
    byte == b' ' || byte == b'\t'
}

fn ends_word(byte: u8) -> bool
    ensures { result ≡ ends_word byte }
{
    is_blank(byte) || byte == b'#'
}

// How many blanks the bytes begin with.
fn gap_length(bytes: &[u8]) -> usize
    ensures within { result ≤ length bytes.now }
    ensures gap { HasGap bytes.now result }
    ensures behind { IsBehindGap (drop result bytes.now) }
{
    let mut rest = bytes;
    while let Some((byte, behind)) = rest.split_first() {
        if is_blank(*byte) {
            rest = behind;
        } else {
            return bytes.len() - rest.len();
        }
    }
    bytes.len()
}

// How many bytes go on before a blank or a comment.
fn plain_length(bytes: &[u8]) -> usize
    ensures within { result ≤ length bytes.now }
    ensures plain { HasPlain bytes.now result }
{
    let mut rest = bytes;
    while let Some((byte, behind)) = rest.split_first() {
        if ends_word(*byte) {
            return bytes.len() - rest.len();
        }
        rest = behind;
    }
    bytes.len()
}

// Whether the byte closes a literal.
fn closes(is_escaped: bool, byte: u8) -> bool
    ensures { result ≡ (not is_escaped && (byte == 34)) }
{
    !is_escaped && byte == b'"'
}

// Whether the byte after this one is escaped.
fn escapes_next(is_escaped: bool, byte: u8) -> bool
    ensures { result ≡ (not is_escaped && (byte == 92)) }
{
    !is_escaped && byte == b'\\'
}

// How many bytes follow a quotation mark up to the one that closes the literal, and without a gap after it.
fn literal_length(bytes: &[u8]) -> usize
    ensures within { result ≤ length bytes.now }
    ensures literal { HasLiteral bytes.now result }
{
    let mut rest = bytes;
    let mut is_escaped = false;
    while let Some((byte, behind)) = rest.split_first() {
        if closes(is_escaped, *byte) {
            return bytes.len() - behind.len() + plain_length(behind);
        }
        is_escaped = escapes_next(is_escaped, *byte);
        rest = behind;
    }
    bytes.len()
}

// Whether a word begins behind a gap, rather than a comment.
fn begins_word(bytes: &[u8]) -> bool
    requires { IsBehindGap bytes.now }
    ensures yes { OnTrue result (BeginsWord bytes.now) }
    ensures no { OnFalse result (IsComment bytes.now) }
{
    match bytes.split_first() {
        Some((byte, _)) => *byte != b'#',
        None => false,
    }
}

// How many bytes the word has that begins there.
fn word_length(bytes: &[u8]) -> usize
    requires { BeginsWord bytes.now }
    ensures some { 0 < result }
    ensures within { result ≤ length bytes.now }
    ensures word { HasWord bytes.now result }
{
    let Some((byte, behind)) = bytes.split_first() else {
        return 0;
    };
    if *byte == b'"' {
        return 1 + literal_length(behind);
    }
    1 + plain_length(behind)
}

/// The next word of a line that ends at `end`, from `at` on. `None` before the line's end or a comment.
pub fn next_word(text: &[u8], line: u64, at: usize, end: usize) -> Option<Mark>
    requires { IsInside text.now at end }
    ensures some { IfSome result (IsWordOf line at end) }
    ensures next { IfSome result (IsNextWord text.now line at end) }
    ensures none { IfNone result (HasNoWord text.now at end) }
{
    let rest = &text[at..end];
    let gap = gap_length(rest);
    let word = &rest[gap..];
    if begins_word(word) {
        let from = at + gap;
        let to = from + word_length(word);
        return Some(Mark { line, from, to });
    }
    None
}

/// The words of a line from the left, up to its end or a comment. A literal has its quotation marks; if it isn't
/// closed, it goes on to the line's end. No words if the text has no such line.
pub fn words_of_line(alloc: Global, text: &[u8], line: u64) -> Result<Vec<Mark>, OutOfMemory>
    ensures within { IfOk result (λ words. AreWordsOf line 0 (length text.now) words.items) }
    ensures all { IfOk result (λ words. AreAllWords text.now line words.items) }
{
    let mut words = Vec::new(alloc);
    let Some((start, end)) = line_bounds(text, line) else {
        return Ok(words);
    };
    let mut at = start;
    while let Some(word) = next_word(text, line, at, end) {
        words.push(word)?;
        at = word.to;
    }
    Ok(words)
}
