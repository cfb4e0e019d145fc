//! Parts of texts, and how they are shown.

ghost use Rattle.std.specs.Prelude.{◌≡◌, ◌≤◌, ◌<◌, ◌++◌, List, ℕ, OnOk, length, take};
ghost use Rattle.explain_words.specs.Places as places;

use crate::pages::{Page, part};
use pact_record::OutOfMemory;
use std::alloc::Global;

/// A part of a text: bytes `from` up to `to` of the whole text, on line `line`, counted from 1.
#[derive(Clone, Copy, Debug, PartialEq, Eq)]
pub struct Part {
    pub line: u64,
    pub from: usize,
    pub to: usize,
}

/// A line that has words, with the parts that these are.
#[derive(Drop)]
pub struct TextLine {
    pub number: u64,
    pub words: Vec<Part>,
}

/// The bytes of a part.
pub fn bytes_of<'a>(text: &'a [u8], there: &Part) -> &'a [u8] {
    part(text, there.from, there.to)
}

fn is_line_end(byte: u8) -> bool
    ensures { result ≡ places.is_line_end byte }
{
    byte == b'\n' || byte == b'\r'
}

/// Where the line begins and ends that the byte at `at` is on.
pub fn line_around(text: &[u8], at: usize) -> (usize, usize) {
    let mut start = 0;
    for (place, byte) in part(text, 0, at.min(text.len())).iter().enumerate() {
        if is_line_end(*byte) {
            start = place.saturating_add(1);
        }
    }
    for (place, byte) in part(text, at, text.len()).iter().enumerate() {
        if is_line_end(*byte) {
            return (start, at.saturating_add(place));
        }
    }
    (start, text.len())
}

fn next_column(column: u64, byte: u8) -> u64
    requires { column < 18446744073709551615 }
    ensures { result ≡ places.next_column column byte }
{
    if is_line_end(byte) {
        1
    } else if byte < 128 || 192 <= byte {
        column + 1
    } else {
        column
    }
}

// The bytes before a place; after the text, all of them.
fn front_of(text: &[u8], at: usize) -> &[u8]
    ensures front { result.now ≡ take at text.now }
    ensures within { length result.now ≤ length text.now }
{
    if at < text.len() { &text[..at] } else { text }
}

fn next_line(line: u64, byte: u8) -> u64
    requires { line < 18446744073709551615 }
    ensures { result ≡ places.next_line line byte }
{
    if byte == b'\n' { line + 1 } else { line }
}

/// The line of a place of a text and its column in characters, both counted from 1; after the text, those of its end.
pub fn place_at(text: &[u8], at: usize) -> (u64, u64)
    ensures line { result.0 ≡ places.line_at at text.now }
    ensures column { result.1 ≡ places.column_at at text.now }
{
    let mut line: u64 = 1;
    let mut column: u64 = 1;
    let mut rest = front_of(text, at);
    while let Some((byte, behind)) = rest.split_first() {
        line = next_line(line, *byte);
        column = next_column(column, *byte);
        rest = behind;
    }
    (line, column)
}

/// Appends a line with a file's name, a line's number and a column, as editors read them.
pub fn put_place_line(
    page: &mut Page,
    file: &[u8],
    line: u64,
    column: u64,
) -> Result<(), OutOfMemory>
    ensures { OnOk result (page.new ≡ page.old ++ places.place_line file.now line column) }
{
    page.put(file)?;
    page.put(b":")?;
    page.put_number(line)?;
    page.put(b":")?;
    page.put_number(column)?;
    page.put(b"\n")
}

/// Appends the file, line and column of a part, and its line with marks under the part.
pub fn put_place(page: &mut Page, file: &[u8], text: &[u8], there: &Part) -> Result<(), OutOfMemory>
    ensures { OnOk result ((more : List ℕ) × (page.new ≡ page.old
        ++ (places.place_line file.now there.now.line (places.column_at there.now.from text.now) ++ more))) }
{
    let (start, stop) = line_around(text, there.from);
    let (_, column) = place_at(text, there.from);
    put_place_line(page, file, there.line, column)?;
    let from = there.from.saturating_sub(start);
    let to = there.to.min(stop).saturating_sub(start);
    page.excerpt(part(text, start, stop), from, to)
}

/// The words of a line that begins and ends at these places, up to a comment. Literals count as several words.
pub fn words_between(
    alloc: Global,
    text: &[u8],
    line: u64,
    start: usize,
    stop: usize,
) -> Result<Vec<Part>, OutOfMemory> {
    let mut words = Vec::new(alloc);
    let mut open: Option<usize> = None;
    for (place, byte) in part(text, start, stop).iter().enumerate() {
        let at = start.saturating_add(place);
        let ends = matches!(*byte, b' ' | b'\t' | b'#');
        match open {
            Some(from) if ends => {
                words.push(Part { line, from, to: at })?;
                open = None;
            }
            None if !ends => open = Some(at),
            _ => {}
        }
        if *byte == b'#' {
            return Ok(words);
        }
    }
    if let Some(from) = open {
        words.push(Part {
            line,
            from,
            to: stop,
        })?;
    }
    Ok(words)
}

// Adds a line if it has words.
fn push_line(
    alloc: Global,
    lines: &mut Vec<TextLine>,
    text: &[u8],
    number: u64,
    start: usize,
    stop: usize,
) -> Result<(), OutOfMemory> {
    let stop = if start < stop && part(text, stop - 1, stop) == b"\r".as_slice() {
        stop - 1
    } else {
        stop
    };
    let words = words_between(alloc, text, number, start, stop)?;
    if !words.is_empty() {
        lines.push(TextLine { number, words })?;
    }
    Ok(())
}

/// The lines of a text that have words.
pub fn lines_of(alloc: Global, text: &[u8]) -> Result<Vec<TextLine>, OutOfMemory> {
    let mut lines = Vec::new(alloc);
    let mut start = 0;
    let mut number = 1u64;
    for (at, byte) in text.iter().enumerate() {
        if *byte == b'\n' {
            push_line(alloc, &mut lines, text, number, start, at)?;
            start = at.saturating_add(1);
            number = number.saturating_add(1);
        }
    }
    push_line(alloc, &mut lines, text, number, start, text.len())?;
    Ok(lines)
}

impl TextLine {
    /// The bytes of the word at that place, or none.
    pub fn word<'a>(&self, text: &'a [u8], at: usize) -> &'a [u8] {
        match self.words.get(at) {
            Some(there) => bytes_of(text, there),
            None => b"",
        }
    }

    /// The part that the word at that place is, or the end of the line's last word.
    pub fn part(&self, at: usize) -> Part {
        match self.words.get(at) {
            Some(there) => *there,
            None => self.end(),
        }
    }

    fn end(&self) -> Part {
        match self.words.last() {
            Some(there) => Part {
                line: self.number,
                from: there.to,
                to: there.to,
            },
            None => Part {
                line: self.number,
                from: 0,
                to: 0,
            },
        }
    }
}
