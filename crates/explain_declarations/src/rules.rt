//! For each rule of programs, what is wrong with a declaration that breaks it.

use crate::attributes::{attributes, column_field, draft_of, names_below, rising};
use crate::declared::{Declared, has_two_inputs, is_operator, number, put_names};
use crate::finding::Finding;
use explain_words::pages::Piece::{Number, Quote, Say};
use explain_words::places::bytes_of;
use explain_words::{Page, Part, TextLine};
use pact_record::{Bytes, Fields, OutOfMemory};
use std::alloc::Global;

// ---- names

// The input at that place isn't declared.
fn missing_input(
    alloc: Global,
    declared: &Declared,
    line: &TextLine,
    place: usize,
) -> Result<Option<Finding>, OutOfMemory> {
    let name = line.word(declared.text, place);
    if place == 0 || declared.input_named(name).is_some() {
        return Ok(None);
    }
    let names = declared.input_names(alloc)?;
    let mut found = Finding::at(alloc, line.part(place));
    found.why.add(&[
        Say("no source or operator is called "),
        Quote(name),
        Say("; there are:"),
    ])?;
    put_names(&mut found.why, &names)?;
    found.offer(alloc, name, &names)?;
    Ok(Some(found))
}

fn missing_function(
    alloc: Global,
    declared: &Declared,
    line: &TextLine,
) -> Result<Option<Finding>, OutOfMemory> {
    let name = declared.function(line);
    if name.is_empty() || declared.function_named(name).is_some() {
        return Ok(None);
    }
    let names = declared.function_names(alloc, b"")?;
    let mut found = Finding::at(alloc, line.part(2));
    found.why.add(&[
        Say("no function is called "),
        Quote(name),
        Say("; there are:"),
    ])?;
    put_names(&mut found.why, &names)?;
    found.offer(alloc, name, &names)?;
    Ok(Some(found))
}

/// P1.
pub fn undeclared(
    alloc: Global,
    declared: &Declared,
    line: &TextLine,
) -> Result<Option<Finding>, OutOfMemory> {
    if let Some(found) = missing_function(alloc, declared, line)? {
        return Ok(Some(found));
    }
    let (left, right) = declared.input_places(line);
    if let Some(found) = missing_input(alloc, declared, line, left)? {
        return Ok(Some(found));
    }
    missing_input(alloc, declared, line, right)
}

/// P2.
pub fn declared_twice(
    alloc: Global,
    declared: &Declared,
    line: &TextLine,
) -> Result<Option<Finding>, OutOfMemory> {
    let is_function = declared.kind(line) == b"function".as_slice();
    for other in &declared.lines {
        let kind = declared.kind(other);
        let is_alike = kind != b"sink".as_slice()
            && (kind == b"function".as_slice()) == is_function;
        let is_other = other.number != line.number;
        if is_alike && is_other && declared.name(other) == declared.name(line) {
            let mut found = Finding::at(alloc, line.part(1));
            found.why.line(&[
                Say("line "),
                Number(other.number),
                Say(" also declares the name "),
                Quote(declared.name(line)),
                Say("; rename one of the two"),
            ])?;
            return Ok(Some(found));
        }
    }
    Ok(None)
}

/// P11: no source has the name.
pub fn source_unnamed(
    alloc: Global,
    declared: &Declared,
    name: &[u8],
) -> Result<Finding, OutOfMemory> {
    let names = declared.source_names(alloc)?;
    let there = match declared.lines.first() {
        Some(line) => line.part(1),
        None => Part {
            line: 1,
            from: 0,
            to: 0,
        },
    };
    let mut found = Finding::at(alloc, there);
    found.why.add(&[
        Say("no source is called "),
        Quote(name),
        Say("; there are:"),
    ])?;
    put_names(&mut found.why, &names)?;
    found.offer(alloc, name, &names)?;
    Ok(found)
}

// ---- kinds and keys

fn counted(page: &mut Page, count: u64, what: &'static str) -> Result<(), OutOfMemory> {
    page.add(&[Number(count), Say(" "), Say(what)])?;
    if count == 1 { Ok(()) } else { page.put(b"s") }
}

/// P3.
pub fn other_kind(
    alloc: Global,
    declared: &Declared,
    line: &TextLine,
) -> Result<Option<Finding>, OutOfMemory> {
    let Some(function) = declared.function_named(declared.function(line)) else {
        return Ok(None);
    };
    let kind = function.word(declared.text, 2);
    if kind == declared.kind(line) {
        return Ok(None);
    }
    let names = declared.function_names(alloc, declared.kind(line))?;
    let mut found = Finding::at(alloc, line.part(2));
    found.why.add(&[
        Say("function "),
        Quote(declared.function(line)),
        Say(" (line "),
        Number(function.number),
        Say(") has the kind "),
        Quote(kind),
        Say(", and this operator is a "),
        Quote(declared.kind(line)),
        Say("; functions of that kind:"),
    ])?;
    put_names(&mut found.why, &names)?;
    found.offer(alloc, declared.function(line), &names)?;
    Ok(Some(found))
}

// The places of the words after `by`, up to `=`, and of those after `=`; of a sink the words after its input.
fn key_places(declared: &Declared, line: &TextLine) -> (usize, usize, usize) {
    let mut by = line.words.len();
    let mut equals = line.words.len();
    for (place, there) in line.words.iter().enumerate() {
        let word = bytes_of(declared.text, there);
        if word == b"by".as_slice() && by == line.words.len() && 2 < place {
            by = place.saturating_add(1);
        }
        if word == b"=".as_slice() && equals == line.words.len() {
            equals = place;
        }
    }
    (by, equals, equals.saturating_add(1))
}

fn span(line: &TextLine, from: usize, to: usize) -> Part {
    let first = line.part(from);
    let last = line.part(to.saturating_sub(1));
    Part {
        line: line.number,
        from: first.from.min(last.to),
        to: last.to,
    }
}

fn match_keys(
    alloc: Global,
    declared: &Declared,
    line: &TextLine,
) -> Result<Option<Finding>, OutOfMemory> {
    let (by, equals, right) = key_places(declared, line);
    let left_count = equals.saturating_sub(by);
    let right_count = line.words.len().saturating_sub(right);
    if left_count == right_count {
        return Ok(None);
    }
    let mut found = Finding::at(alloc, span(line, by, line.words.len()));
    found.why.put(b"the left list has ")?;
    counted(&mut found.why, left_count as u64, "key")?;
    found.why.line(&[
        Say(", and the right one "),
        Number(right_count as u64),
        Say("; each key on the left needs one on the right"),
    ])?;
    Ok(Some(found))
}

fn grouping_keys(
    alloc: Global,
    declared: &Declared,
    line: &TextLine,
) -> Result<Option<Finding>, OutOfMemory> {
    let Some(function) = declared.function_named(declared.function(line)) else {
        return Ok(None);
    };
    let expected = number(function.word(declared.text, 3)).unwrap_or(0);
    let (by, equals, right) = key_places(declared, line);
    let is_left = equals.saturating_sub(by) as u64 != expected;
    let (from, to) = if is_left {
        (by, equals)
    } else {
        (right, line.words.len())
    };
    let given = to.saturating_sub(from) as u64;
    let has_side = is_left || declared.kind(line) == b"cogroup".as_slice();
    if !has_side || given == expected {
        return Ok(None);
    }
    let mut found = Finding::at(alloc, span(line, from, to));
    found.why.add(&[
        Say("function "),
        Quote(declared.function(line)),
        Say(" (line "),
        Number(function.number),
        Say(") is written for "),
    ])?;
    counted(&mut found.why, expected, "key")?;
    found.why.line(&[
        Say(if is_left {
            ", and the list after by has "
        } else {
            ", and the list after = has "
        }),
        Number(given),
    ])?;
    Ok(Some(found))
}

/// P4.
pub fn key_count(
    alloc: Global,
    declared: &Declared,
    line: &TextLine,
) -> Result<Option<Finding>, OutOfMemory> {
    let kind = declared.kind(line);
    if kind == b"match".as_slice() {
        match_keys(alloc, declared, line)
    } else if kind == b"reduce".as_slice() || kind == b"cogroup".as_slice() {
        grouping_keys(alloc, declared, line)
    } else {
        Ok(None)
    }
}

// ---- attributes

fn put_fields(alloc: Global, page: &mut Page, set: Fields) -> Result<(), OutOfMemory> {
    let fields = rising(alloc, set)?;
    if fields.is_empty() {
        page.put(b" none")?;
    }
    for field in &fields {
        page.add(&[Say(" "), Number(*field)])?;
    }
    page.put(b"\n")
}

// The first key from one place to another that isn't an attribute of the input.
fn missing_key(
    alloc: Global,
    declared: &Declared,
    line: &TextLine,
    from: usize,
    to: usize,
    input: &[u8],
    set: Fields,
) -> Result<Option<Finding>, OutOfMemory> {
    let own = rising(alloc, set)?;
    for place in from..to {
        let word = line.word(declared.text, place);
        let Some(key) = number(word) else {
            return Ok(None);
        };
        if !own.contains(&key) {
            let mut found = Finding::at(alloc, line.part(place));
            found.why.add(&[
                Say("field "),
                Number(key),
                Say(" isn't an attribute of the input "),
                Quote(input),
                Say("; its attributes are:"),
            ])?;
            put_fields(alloc, &mut found.why, set)?;
            for field in &own {
                let digits = field.to_string(alloc)?;
                found
                    .instead
                    .push(Bytes::from_slice(alloc, digits.as_bytes())?)?;
            }
            return Ok(Some(found));
        }
    }
    Ok(None)
}

/// P5.
pub fn attribute_missing(
    alloc: Global,
    declared: &Declared,
    line: &TextLine,
) -> Result<Option<Finding>, OutOfMemory> {
    let Some(draft) = draft_of(alloc, declared.text) else {
        return Ok(None);
    };
    let (by, equals, after) = key_places(declared, line);
    let (left, right) = declared.inputs(line);
    let set = attributes(alloc, declared, &draft, left)?;
    if let Some(found) = missing_key(alloc, declared, line, by, equals, left, set)? {
        return Ok(Some(found));
    }
    if right.is_empty() {
        return Ok(None);
    }
    let set = attributes(alloc, declared, &draft, right)?;
    missing_key(alloc, declared, line, after, line.words.len(), right, set)
}

/// P6.
pub fn attributes_shared(
    alloc: Global,
    declared: &Declared,
    line: &TextLine,
) -> Result<Option<Finding>, OutOfMemory> {
    let Some(draft) = draft_of(alloc, declared.text) else {
        return Ok(None);
    };
    let (left, right) = declared.inputs(line);
    let shared = attributes(alloc, declared, &draft, left)?.meet(attributes(
        alloc, declared, &draft, right,
    )?);
    if !has_two_inputs(declared.kind(line)) || rising(alloc, shared)?.is_empty() {
        return Ok(None);
    }
    let mut found = Finding::at(alloc, span(line, 3, 5));
    found.why.add(&[
        Say("the inputs "),
        Quote(left),
        Say(" and "),
        Quote(right),
        Say(" have these fields in common:"),
    ])?;
    put_fields(alloc, &mut found.why, shared)?;
    found.why.line(&[Say(
        "let the function below one input set another field, or set the field above this operator",
    )])?;
    Ok(Some(found))
}

// ---- the tree

// The lines that use a name as an input, one for each use.
fn uses(alloc: Global, declared: &Declared, name: &[u8]) -> Result<Vec<u64>, OutOfMemory> {
    let mut lines = Vec::new(alloc);
    for line in &declared.lines {
        let (left, right) = declared.inputs(line);
        for input in [left, right] {
            if !input.is_empty() && input == name {
                lines.push(line.number)?;
            }
        }
    }
    Ok(lines)
}

fn put_lines(page: &mut Page, lines: &[u64]) -> Result<(), OutOfMemory> {
    for (at, line) in lines.iter().enumerate() {
        page.add(&[Say(if at == 0 { "" } else { ", " }), Number(*line)])?;
    }
    page.put(b"\n")
}

// Whether a path leads from the name to the sink.
fn is_reached(alloc: Global, declared: &Declared, name: &[u8]) -> Result<bool, OutOfMemory> {
    for line in &declared.lines {
        if declared.kind(line) == b"sink".as_slice() {
            for below in &names_below(alloc, declared, declared.name(line))? {
                if *below == name {
                    return Ok(true);
                }
            }
        }
    }
    Ok(false)
}

/// P7.
pub fn not_in_tree(
    alloc: Global,
    declared: &Declared,
    line: &TextLine,
) -> Result<Option<Finding>, OutOfMemory> {
    let name = declared.name(line);
    let lines = uses(alloc, declared, name)?;
    let mut found = Finding::at(alloc, line.part(1));
    if lines.is_empty() {
        found.why.line(&[
            Quote(name),
            Say(" isn't an input of an operator or of the sink"),
        ])?;
        return Ok(Some(found));
    }
    if lines.len() > 1 {
        found.why.add(&[
            Quote(name),
            Say(" is an input "),
            Number(lines.len() as u64),
            Say(" times, on lines "),
        ])?;
        put_lines(&mut found.why, &lines)?;
        found.why.line(&[Say(
            "to read a source twice, declare it twice, each time with other fields; an operator's result can be used only once",
        )])?;
        return Ok(Some(found));
    }
    if !is_reached(alloc, declared, name)? {
        found.why.line(&[Say("no path leads from "), Quote(name), Say(" to the sink")])?;
        return Ok(Some(found));
    }
    Ok(None)
}

// ---- numbers of declarations

// How many operators, functions, and matches and crosses there are up to a line.
fn counts_up_to(declared: &Declared, last: u64) -> (u64, u64, u64) {
    let mut operators = 0u64;
    let mut functions = 0u64;
    let mut pairs = 0u64;
    for line in &declared.lines {
        let kind = declared.kind(line);
        if line.number <= last && is_operator(kind) {
            operators = operators.saturating_add(1);
        }
        if line.number <= last && kind == b"function".as_slice() {
            functions = functions.saturating_add(1);
        }
        if line.number <= last && (kind == b"match".as_slice() || kind == b"cross".as_slice()) {
            pairs = pairs.saturating_add(1);
        }
    }
    (operators, functions, pairs)
}

/// P8.
pub fn too_many(
    alloc: Global,
    declared: &Declared,
    line: &TextLine,
) -> Result<Option<Finding>, OutOfMemory> {
    let (operators, functions, pairs) = counts_up_to(declared, line.number);
    let is_function = declared.kind(line) == b"function".as_slice();
    let (what, count, most) = if is_function {
        ("function", functions, 64)
    } else if operators > 16 {
        ("operator", operators, 16)
    } else {
        ("match or cross", pairs, 8)
    };
    if count <= most {
        return Ok(None);
    }
    let mut found = Finding::at(alloc, line.part(1));
    found.why.line(&[
        Say("this is "),
        Say(what),
        Say(" number "),
        Number(count),
        Say(", and at most "),
        Number(most),
        Say(" are allowed"),
    ])?;
    Ok(Some(found))
}

/// P9.
pub fn sinks(alloc: Global, declared: &Declared) -> Result<Finding, OutOfMemory> {
    let mut lines = Vec::new(alloc);
    let mut there = Part {
        line: 1,
        from: 0,
        to: 0,
    };
    let mut last: &[u8] = b"INPUT";
    for line in &declared.lines {
        if declared.kind(line) == b"sink".as_slice() {
            lines.push(line.number)?;
            there = span(line, 0, line.words.len());
        } else if lines.is_empty() {
            there = line.part(line.words.len());
        }
        if is_operator(declared.kind(line)) {
            last = declared.name(line);
        }
    }
    let mut found = Finding::at(alloc, there);
    if lines.is_empty() {
        found.why.line(&[
            Say("the program has no sink; add one, such as: sink "),
            Quote(last),
            Say(" 0"),
        ])?;
    } else {
        found.why.add(&[
            Say("the program has "),
            Number(lines.len() as u64),
            Say(" sinks, on lines "),
        ])?;
        put_lines(&mut found.why, &lines)?;
    }
    Ok(found)
}

// ---- fields

// The line of another column with the same field, or 0.
fn other_column(declared: &Declared, line: &TextLine, at: usize, field: u64) -> u64 {
    for other in &declared.lines {
        for (place, there) in other.words.iter().enumerate() {
            let is_itself = other.number == line.number && place == at;
            let is_column = declared.kind(other) == b"source".as_slice() && place > 2;
            if is_column
                && !is_itself
                && column_field(bytes_of(declared.text, there)) == Some(field)
            {
                return other.number;
            }
        }
    }
    0
}

// What is wrong with a column of a source.
fn wrong_column(
    alloc: Global,
    declared: &Declared,
    line: &TextLine,
    place: usize,
) -> Result<Option<Finding>, OutOfMemory> {
    let Some(field) = column_field(line.word(declared.text, place)) else {
        return Ok(None);
    };
    let mut found = Finding::at(alloc, line.part(place));
    if declared.fields <= field {
        declared.put_width(&mut found.why, field)?;
        return Ok(Some(found));
    }
    let other = other_column(declared, line, place, field);
    if other == 0 {
        return Ok(None);
    }
    found.why.line(&[
        Say("field "),
        Number(field),
        Say(" also belongs to a column on line "),
        Number(other),
        Say("; give each column a field of its own"),
    ])?;
    Ok(Some(found))
}

/// P10.
pub fn field_wrong(
    alloc: Global,
    declared: &Declared,
    line: &TextLine,
) -> Result<Option<Finding>, OutOfMemory> {
    let is_sink = declared.kind(line) == b"sink".as_slice();
    for place in 2..line.words.len() {
        if !is_sink {
            if let Some(found) = wrong_column(alloc, declared, line, place)? {
                return Ok(Some(found));
            }
        } else if let Some(field) = number(line.word(declared.text, place)) {
            if declared.fields <= field {
                let mut found = Finding::at(alloc, line.part(place));
                declared.put_width(&mut found.why, field)?;
                return Ok(Some(found));
            }
        }
    }
    Ok(None)
}
