//! Texts with a word at a place.

ghost use Rattle.std.specs.Prelude.{◌≡◌, ◌≤◌, ◌++◌, IfOk, length, take, drop};
ghost use Rattle.text_marks.specs.TextParts.{IsInside, before_word, behind_word, cut_with, goes_on, is_gap, joins, text_with};

use crate::marks::Mark;
use pact_record::{Bytes, OutOfMemory};
use std::alloc::Global;

fn is_gap(byte: u8) -> bool
    ensures { result ≡ is_gap byte }
{
    matches!(byte, b' ' | b'\t' | b'\n')
}

// Whether a word that is inserted here would join the one before it.
fn joins_before(text: &[u8], at: usize) -> bool
    requires { at ≤ length text.now }
    ensures { result ≡ joins (take at text.now) }
{
    match text[..at].split_last() {
        Some((byte, _front)) => !is_gap(*byte),
        None => false,
    }
}

// Whether a word that is inserted here would join the one after it.
fn joins_after(text: &[u8], at: usize) -> bool
    requires { at ≤ length text.now }
    ensures { result ≡ goes_on (drop at text.now) }
{
    match text[at..].split_first() {
        Some((byte, _)) => !matches!(byte, b' ' | b'\t' | b'#' | b'\r' | b'\n'),
        None => false,
    }
}

// A blank if the mark is empty and the place needs one.
fn gap_before(text: &[u8], mark: &Mark) -> &'static [u8]
    requires { IsInside text.now mark.now.from mark.now.to }
    ensures { take mark.now.from text.now ++ result.now ≡ before_word mark.now.from mark.now.to text.now }
{
    if mark.from == mark.to && joins_before(text, mark.from) {
        b" "
    } else {
        b""
    }
}

fn gap_after(text: &[u8], mark: &Mark) -> &'static [u8]
    requires { IsInside text.now mark.now.from mark.now.to }
    ensures { result.now ++ drop mark.now.to text.now ≡ behind_word mark.now.from mark.now.to text.now }
{
    if mark.from == mark.to && joins_after(text, mark.to) {
        b" "
    } else {
        b""
    }
}

/// The text before the mark and the word, with what ends a trial.
pub fn cut_with(alloc: Global, text: &[u8], mark: &Mark, word: &[u8]) -> Result<Bytes, OutOfMemory>
    requires { IsInside text.now mark.now.from mark.now.to }
    ensures { IfOk result (λ cut. cut ≡ cut_with mark.now.from mark.now.to word.now text.now) }
{
    let mut cut = Bytes::from_slice(alloc, &text[..mark.from])?;
    cut.extend_from_slice(gap_before(text, mark))?;
    cut.extend_from_slice(word)?;
    cut.extend_from_slice(b" \n\n")?;
    Ok(cut)
}

/// The text with `word` instead of the marked part; an empty word deletes that part. If the mark is empty, the word is
/// inserted, with blanks around it if it would join its neighbours.
pub fn with_word(alloc: Global, text: &[u8], mark: &Mark, word: &[u8]) -> Result<Bytes, OutOfMemory>
    requires { IsInside text.now mark.now.from mark.now.to }
    ensures { IfOk result (λ other. other ≡ text_with mark.now.from mark.now.to word.now text.now) }
{
    let mut other = Bytes::from_slice(alloc, &text[..mark.from])?;
    other.extend_from_slice(gap_before(text, mark))?;
    other.extend_from_slice(word)?;
    other.extend_from_slice(gap_after(text, mark))?;
    other.extend_from_slice(&text[mark.to..])?;
    Ok(other)
}
