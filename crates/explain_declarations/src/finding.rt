//! What is wrong with the declaration that `pact` reports.

use crate::declared::{Declared, has_two_inputs, is_input, is_operator};
use crate::rules::{
    attribute_missing, attributes_shared, declared_twice, field_wrong, key_count, not_in_tree,
    other_kind, sinks, source_unnamed, too_many, undeclared,
};
use explain_words::{Page, Part, TextLine};
use pact_record::{Bytes, OutOfMemory};
use std::alloc::Global;

/// The word at fault, why it is wrong, and what may be there instead. Nothing has tried yet whether that helps.
#[derive(Drop)]
pub struct Finding {
    pub there: Part,
    pub why: Page,
    pub instead: Vec<Bytes>,
}

impl Finding {
    /// A finding at that word, with nothing to say yet.
    pub fn at(alloc: Global, there: Part) -> Finding {
        Finding {
            there,
            why: Page::new(alloc),
            instead: Vec::new(alloc),
        }
    }

    /// Adds words that may be there instead: first the one spelled most like `word`, then all.
    pub fn offer(
        &mut self,
        alloc: Global,
        word: &[u8],
        names: &[&[u8]],
    ) -> Result<(), OutOfMemory> {
        if let Some(near) = explain_words::spelling::nearest(word, names) {
            self.instead.push(Bytes::from_slice(alloc, near)?)?;
        }
        for name in names {
            self.instead.push(Bytes::from_slice(alloc, name)?)?;
        }
        Ok(())
    }
}

// Whether the rule is one that a declaration of this kind can break.
fn can_break(code: u32, kind: &[u8]) -> bool {
    let is_sink = kind == b"sink".as_slice();
    let is_function = kind == b"function".as_slice();
    match code {
        1 => is_operator(kind) || is_sink,
        2 => is_input(kind) || is_function,
        3 => is_operator(kind),
        4 | 5 => is_operator(kind),
        6 => has_two_inputs(kind),
        7 => is_input(kind),
        8 => is_operator(kind) || is_function,
        10 => kind == b"source".as_slice() || is_sink,
        _ => false,
    }
}

// What is wrong with this declaration, by the rule of that number.
fn broken(
    alloc: Global,
    declared: &Declared,
    line: &TextLine,
    code: u32,
) -> Result<Option<Finding>, OutOfMemory> {
    match code {
        1 => undeclared(alloc, declared, line),
        2 => declared_twice(alloc, declared, line),
        3 => other_kind(alloc, declared, line),
        4 => key_count(alloc, declared, line),
        5 => attribute_missing(alloc, declared, line),
        6 => attributes_shared(alloc, declared, line),
        7 => not_in_tree(alloc, declared, line),
        8 => too_many(alloc, declared, line),
        10 => field_wrong(alloc, declared, line),
        _ => Ok(None),
    }
}

/// What is wrong with the declaration that `pact` reports by this name and rule.
pub fn find_rule(
    alloc: Global,
    text: &[u8],
    name: &[u8],
    code: u32,
) -> Result<Option<Finding>, OutOfMemory> {
    let declared = Declared::of(alloc, text)?;
    if code == 9 {
        return Ok(Some(sinks(alloc, &declared)?));
    }
    if code == 11 {
        return Ok(Some(source_unnamed(alloc, &declared, name)?));
    }
    for line in &declared.lines {
        if declared.name(line) == name && can_break(code, declared.kind(line)) {
            if let Some(found) = broken(alloc, &declared, line, code)? {
                return Ok(Some(found));
            }
        }
    }
    Ok(None)
}
