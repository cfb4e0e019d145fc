//! What in a program and its files is legal but seldom meant.

use crate::trials::part_of;
use explain_declarations::Declared;
use explain_rows::hint_places::{function_of, operator_of};
use explain_rows::put_hint_words;
use explain_words::places::put_place;
use explain_words::{Page, Part, TextLine};
use pact_record::OutOfMemory;
use program_hints::Hint;
use std::alloc::Global;
use text_marks::{function_line, statement_line, words_of_line};

// ---- places

fn put_at_line(
    alloc: Global,
    page: &mut Page,
    file: &[u8],
    declared: &Declared,
    line: u64,
) -> Result<(), OutOfMemory> {
    let words = words_of_line(alloc, declared.text, line)?;
    if let (Some(first), Some(last)) = (words.first(), words.last()) {
        let there = Part {
            line,
            from: part_of(first).from,
            to: part_of(last).to,
        };
        put_place(page, file, declared.text, &there)?;
    }
    Ok(())
}

// The statement of a function, or its first line.
fn put_statement(
    alloc: Global,
    page: &mut Page,
    file: &[u8],
    declared: &Declared,
    name: &[u8],
    statement: Option<u32>,
) -> Result<(), OutOfMemory> {
    let text = declared.text;
    let line = match statement {
        Some(at) => statement_line(text, name, 0, at),
        None => function_line(text, name, 0),
    };
    match line {
        Some(number) => put_at_line(alloc, page, file, declared, number),
        None => Ok(()),
    }
}

fn put_declaration(
    alloc: Global,
    page: &mut Page,
    file: &[u8],
    declared: &Declared,
    op: u32,
) -> Result<(), OutOfMemory> {
    match declared.numbered(op as usize, false) {
        Some(line) => put_at_line(alloc, page, file, declared, line.number),
        None => Ok(()),
    }
}

// A statement of an operator's function, or the operator.
fn put_of_operator(
    alloc: Global,
    page: &mut Page,
    file: &[u8],
    declared: &Declared,
    op: u32,
    statement: Option<u32>,
) -> Result<(), OutOfMemory> {
    match (declared.numbered(op as usize, false), statement) {
        (Some(line), Some(_)) => {
            let name = declared.function(line);
            put_statement(alloc, page, file, declared, name, statement)
        }
        _ => put_declaration(alloc, page, file, declared, op),
    }
}

fn put_of_function(
    alloc: Global,
    page: &mut Page,
    file: &[u8],
    declared: &Declared,
    function: u32,
    statement: Option<u32>,
) -> Result<(), OutOfMemory> {
    match declared.numbered(function as usize, true) {
        Some(line) => put_statement(alloc, page, file, declared, declared.name(line), statement),
        None => Ok(()),
    }
}

fn put_sink(
    alloc: Global,
    page: &mut Page,
    file: &[u8],
    declared: &Declared,
) -> Result<(), OutOfMemory> {
    for line in &declared.lines {
        if declared.kind(line) == b"sink".as_slice() {
            put_at_line(alloc, page, file, declared, line.number)?;
        }
    }
    Ok(())
}

// ---- hints

fn operator_name<'a>(declared: &Declared<'a>, op: u32) -> &'a [u8] {
    match declared.numbered(op as usize, false) {
        Some(line) => declared.name(line),
        None => b"",
    }
}

/// Appends one hint of a program, with its place and a cure.
pub fn put_hint(
    alloc: Global,
    page: &mut Page,
    file: &[u8],
    declared: &Declared,
    hint: &Hint,
) -> Result<(), OutOfMemory> {
    page.put(b"warning: ")?;
    if let Some((op, statement)) = operator_of(hint) {
        put_of_operator(alloc, page, file, declared, op, statement)?;
        return put_hint_words(page, hint, operator_name(declared, op));
    }
    match function_of(hint) {
        Some((function, statement)) => put_of_function(
            alloc, page, file, declared, function, statement,
        )?,
        None => put_sink(alloc, page, file, declared)?,
    }
    put_hint_words(page, hint, b"")
}
