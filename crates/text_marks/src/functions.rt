//! The lines of functions, statements and declarations.

ghost use Rattle.std.specs.Prelude.{◌≡◌, ◌≤◌, ◌<◌, ◌+◌, IfSome, IfOk, length};

use crate::bounds::line_bounds;
use crate::marks::marked_part;
use crate::words::next_word;
use pact_record::OutOfMemory;
use std::alloc::Global;
use text_lines::{is_word, line_at, trim_line};

// What a line is by its first word.
#[derive(Clone, Copy, PartialEq, Eq)]
enum Start {
    /// The line has no words.
    Nothing,
    Header,
    /// The first line of an `if` or `repeat`.
    Block,
    /// The first line of an `each`.
    Loop,
    Else,
    End,
    /// A statement of one line, or a declaration.
    Other,
}

// The first two words of a line; a word that is missing is empty.
fn first_words(line: &[u8]) -> (&[u8], &[u8]) {
    let Some(first) = next_word(line, 1, 0, line.len()) else {
        return (b"", b"");
    };
    match next_word(line, 1, first.to, line.len()) {
        Some(second) => (marked_part(line, &first), marked_part(line, &second)),
        None => (marked_part(line, &first), b""),
    }
}

fn start_of(word: &[u8]) -> Start {
    if word.is_empty() {
        Start::Nothing
    } else if is_word(word, b"function") {
        Start::Header
    } else if is_word(word, b"if") || is_word(word, b"repeat") {
        Start::Block
    } else if is_word(word, b"each") {
        Start::Loop
    } else if is_word(word, b"else") {
        Start::Else
    } else if is_word(word, b"end") {
        Start::End
    } else {
        Start::Other
    }
}

// How many blocks are open after a line, the function counted as one.
fn depth_after(depth: u64, start: Start) -> u64 {
    match start {
        Start::Header if depth == 0 => 1,
        Start::Block | Start::Loop if depth > 0 => depth.saturating_add(1),
        Start::End => depth.saturating_sub(1),
        _ => depth,
    }
}

// Whether the line counts as a statement of a function.
fn is_statement(start: Start) -> bool {
    match start {
        Start::Header | Start::Block | Start::Loop | Start::Other => true,
        Start::Nothing | Start::Else | Start::End => false,
    }
}

// The header of the function: its line, and where the line after it begins.
fn find_header(text: &[u8], function: &[u8], nth: usize) -> Option<(u64, usize)>
    ensures { IfSome result (λ found. (found.0 ≤ found.1) × (found.1 ≤ length text.now)) }
{
    let mut number: u64 = 0;
    let mut at = 0;
    let mut depth = 0;
    let mut left = nth;
    while at < text.len() {
        let (line, next) = line_at(text, at);
        number += 1;
        at = next;
        let (first, second) = first_words(trim_line(line));
        let start = start_of(first);
        if depth == 0 && start == Start::Header && is_word(second, function) {
            if left == 0 {
                return Some((number, at));
            }
            left -= 1;
        }
        depth = depth_after(depth, start);
    }
    None
}

/// The line of a function's header: the first function with that name if `nth` is 0, the second one if it is 1, and so
/// on.
pub fn function_line(text: &[u8], function: &[u8], nth: usize) -> Option<u64> {
    let (line, _) = find_header(text, function, nth)?;
    Some(line)
}

// The line of a statement after a header.
fn statement_after(text: &[u8], header: u64, behind: usize, statement: u32) -> Option<u64>
    requires { (header ≤ behind) × (behind ≤ length text.now) }
{
    let mut number = header;
    let mut at = behind;
    let mut depth = 1;
    let mut left = statement;
    while at < text.len() && depth > 0 {
        let (line, next) = line_at(text, at);
        number += 1;
        at = next;
        let (first, _) = first_words(trim_line(line));
        let start = start_of(first);
        if is_statement(start) {
            if left == 0 {
                return Some(number);
            }
            left -= 1;
        }
        depth = depth_after(depth, start);
    }
    None
}

/// The line of a function's statement, which counts from 0 as in the rules of functions: in text order, inside blocks
/// and outside, without `else` and `end`. The function is that of `function_line`.
pub fn statement_line(text: &[u8], function: &[u8], nth: usize, at: u32) -> Option<u64> {
    let (header, behind) = find_header(text, function, nth)?;
    statement_after(text, header, behind, at)
}

/// The lines that declare something by that name, in text order: a source, a function or an operator of that name, or a
/// sink with that input.
pub fn declaration_lines(alloc: Global, text: &[u8], name: &[u8]) -> Result<Vec<u64>, OutOfMemory> {
    let mut lines = Vec::new(alloc);
    let mut number: u64 = 0;
    let mut at = 0;
    let mut depth = 0;
    while at < text.len() {
        let (line, next) = line_at(text, at);
        number += 1;
        at = next;
        let (first, second) = first_words(trim_line(line));
        if depth == 0 && is_word(second, name) {
            lines.push(number)?;
        }
        depth = depth_after(depth, start_of(first));
    }
    Ok(lines)
}

// Changes the lines of what is open by a line.
fn open_after(open: &mut Vec<u64>, number: u64, start: Start) -> Result<(), OutOfMemory> {
    match start {
        Start::Header if open.is_empty() => open.push(number)?,
        Start::Block | Start::Loop if !open.is_empty() => open.push(number)?,
        Start::End => {
            let _ended = open.pop();
        }
        _ => {}
    }
    Ok(())
}

/// The lines of what is open before a line: the header of the function around it, and then the blocks in it, from the
/// outermost to the innermost.
pub fn open_blocks(alloc: Global, text: &[u8], line: u64) -> Result<Vec<u64>, OutOfMemory> {
    let mut open = Vec::new(alloc);
    let mut at = 0;
    for number in 1..line {
        if at == text.len() {
            return Ok(open);
        }
        let (inside, next) = line_at(text, at);
        let (first, _) = first_words(trim_line(inside));
        open_after(&mut open, number, start_of(first))?;
        at = next;
    }
    Ok(open)
}

// Whether a line is the first line of an `each`.
fn begins_loop(text: &[u8], line: u64) -> bool {
    match line_bounds(text, line) {
        Some((start, end)) => {
            let (first, _) = first_words(&text[start..end]);
            start_of(first) == Start::Loop
        }
        None => false,
    }
}

/// How many `each` are open before a line.
pub fn open_loops(alloc: Global, text: &[u8], line: u64) -> Result<u32, OutOfMemory> {
    let mut loops: u32 = 0;
    for open in &open_blocks(alloc, text, line)? {
        if begins_loop(text, *open) {
            loops = loops.saturating_add(1);
        }
    }
    Ok(loops)
}
