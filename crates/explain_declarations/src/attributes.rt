//! The attributes of inputs: the fields that their records may have values in.

use crate::declared::{Declared, number};
use pact_record::{Fields, MAX_FIELDS, OutOfMemory};
use program_text::read_program;
use std::alloc::Global;
use tac_syntax::{Draft, functions_of};
use tac_validate::validate;

/// The draft that a text spells, or nothing if it is faulty.
pub fn draft_of(alloc: Global, text: &[u8]) -> Option<Draft> {
    read_program(alloc, text).ok()
}

fn with_field(fields: Fields, field: u64) -> Fields {
    match u32::try_from(field) {
        Ok(small) if small < MAX_FIELDS => fields.with(small),
        _ => fields,
    }
}

// The fields that the functions of that name set.
fn set_by(alloc: Global, draft: &Draft, name: &[u8]) -> Result<Fields, OutOfMemory> {
    let mut found = Fields::empty();
    let fields = draft.fields();
    if fields == 0 {
        return Ok(found);
    }
    for function in functions_of(draft) {
        if function.name.bytes() == name {
            if let Ok(valid) = validate(function.copy(alloc)?, fields) {
                found = found.union(valid.named());
            }
        }
    }
    Ok(found)
}

/// The field of a column's word, such as `int:3`.
pub fn column_field(word: &[u8]) -> Option<u64> {
    let digits = match word.strip_prefix(b"int:") {
        Some(digits) => digits,
        None => word.strip_prefix(b"text:")?,
    };
    number(digits)
}

// Whether the name is among these.
fn is_among(names: &[&[u8]], name: &[u8]) -> bool {
    for other in names {
        if *other == name {
            return true;
        }
    }
    false
}

// Adds the inputs of each operator whose name is among these.
fn push_inputs<'a>(declared: &Declared<'a>, names: &mut Vec<&'a [u8]>) -> Result<(), OutOfMemory> {
    for line in &declared.lines {
        let is_below = is_among(names, declared.name(line)) && !declared.function(line).is_empty();
        let (left, right) = declared.inputs(line);
        for input in [left, right] {
            if is_below && !input.is_empty() && !is_among(names, input) {
                names.push(input)?;
            }
        }
    }
    Ok(())
}

/// The names of the sources and operators from which a path leads to that one, and its own.
pub fn names_below<'a>(
    alloc: Global,
    declared: &Declared<'a>,
    name: &'a [u8],
) -> Result<Vec<&'a [u8]>, OutOfMemory> {
    let mut names = vec![in alloc; name]?;
    for _ in 0..declared.lines.len().min(64) {
        push_inputs(declared, &mut names)?;
    }
    Ok(names)
}

/// The attributes of the source or operator of that name.
pub fn attributes<'a>(
    alloc: Global,
    declared: &Declared<'a>,
    draft: &Draft,
    name: &'a [u8],
) -> Result<Fields, OutOfMemory> {
    let names = names_below(alloc, declared, name)?;
    let mut found = Fields::empty();
    for line in &declared.lines {
        let is_below = is_among(&names, declared.name(line));
        if is_below && declared.kind(line) == b"source".as_slice() {
            for there in &line.words {
                let word = explain_words::places::bytes_of(declared.text, there);
                if let Some(field) = column_field(word) {
                    found = with_field(found, field);
                }
            }
        } else if is_below && !declared.function(line).is_empty() {
            found = found.union(set_by(alloc, draft, declared.function(line))?);
        }
    }
    Ok(found)
}

/// The fields of a set, in rising order.
pub fn rising(alloc: Global, set: Fields) -> Result<Vec<u64>, OutOfMemory> {
    let mut fields = Vec::new(alloc);
    for field in 0..MAX_FIELDS {
        if set.has(field) {
            fields.push(u64::from(field))?;
        }
    }
    Ok(fields)
}
