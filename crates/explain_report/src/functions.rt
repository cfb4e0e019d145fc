//! Functions that break a rule.

use crate::trials::{heals, part_of, put_mended};
use explain_declarations::Declared;
use explain_declarations::reasons::{is_too_high, number_in, put_keys, put_kind, put_registers};
use explain_words::faults::function_rule;
use explain_words::pages::Piece::{Number, Quote, Say};
use explain_words::pages::text_of;
use explain_words::places::{bytes_of, put_place};
use explain_words::{Page, Part, TextLine};
use pact_record::{Bytes, MAX_FIELDS, OutOfMemory};
use program_text::read_program;
use std::alloc::Global;
use tac_syntax::functions_of;
use tac_validate::validate;
use text_marks::{Mark, open_blocks, statement_line, words_of_line};

/// A function that breaks a rule, as `pact` reports it.
#[derive(Clone, Copy)]
pub struct Broken<'a> {
    pub name: &'a str,
    pub code: u32,
    pub at: u32,
    /// The line that `pact` prints.
    pub line: &'a [u8],
}

// Which of the functions with that name breaks the rule.
fn place_among(alloc: Global, text: &[u8], broken: &Broken) -> Result<usize, OutOfMemory> {
    let Ok(draft) = read_program(alloc, text) else {
        return Ok(0);
    };
    let fields = draft.fields();
    let mut nth = 0usize;
    for function in functions_of(&draft) {
        if function.name.bytes() != broken.name.as_bytes() || fields == 0 || MAX_FIELDS < fields {
            continue;
        }
        match validate(function.copy(alloc)?, fields) {
            Err(refused) if refused.code == broken.code && refused.at == broken.at => {
                return Ok(nth);
            }
            _ => nth = nth.saturating_add(1),
        }
    }
    Ok(0)
}

// ---- the word at fault

fn word_at<'a>(text: &'a [u8], words: &[Mark], at: usize) -> &'a [u8] {
    match words.get(at) {
        Some(mark) => bytes_of(text, &part_of(mark)),
        None => b"",
    }
}

// The place of the first register that doesn't exist.
fn register_place(text: &[u8], words: &[Mark]) -> usize {
    for (at, mark) in words.iter().enumerate() {
        if is_too_high(bytes_of(text, &part_of(mark))) {
            return at;
        }
    }
    0
}

// The place of the word at fault among the statement's words.
fn faulty_place(text: &[u8], words: &[Mark], code: u32) -> usize {
    let first = word_at(text, words, 0);
    let form = word_at(text, words, 2);
    match code {
        1 => register_place(text, words),
        2 if form == b"key".as_slice() => 2,
        2 => 3,
        3 if first == b"set".as_slice() => 2,
        3 => 4,
        4 => 3,
        8 => 1,
        _ => 0,
    }
}

// ---- what may be there instead

fn put_around(alloc: Global, page: &mut Page, text: &[u8], line: u64) -> Result<(), OutOfMemory> {
    page.put(b"it is nested in:")?;
    for (at, open) in open_blocks(alloc, text, line)?.iter().enumerate() {
        if at > 0 {
            let words = words_of_line(alloc, text, *open)?;
            page.add(&[
                Say(if at == 1 { " " } else { ", " }),
                Quote(word_at(text, &words, 0)),
                Say(" on line "),
                Number(*open),
            ])?;
        }
    }
    page.put(b"\n")
}

// The most turns of a statement in all loops around it.
const TURN_LIMIT: u64 = 100_000;

// How often the loops with a fixed number of turns around a line run it.
fn turns_around(alloc: Global, text: &[u8], line: u64) -> Result<u64, OutOfMemory> {
    let mut turns = 1u64;
    for open in &open_blocks(alloc, text, line)? {
        let words = words_of_line(alloc, text, *open)?;
        if word_at(text, &words, 0) == b"repeat".as_slice() {
            turns = turns.saturating_mul(number_in(word_at(text, &words, 1)));
        }
    }
    Ok(turns)
}

fn put_turns(alloc: Global, page: &mut Page, text: &[u8], there: &Part) -> Result<(), OutOfMemory> {
    put_around(alloc, page, text, there.line)?;
    let around = turns_around(alloc, text, there.line)?;
    let own = number_in(bytes_of(text, there));
    page.line(&[
        Number(around),
        Say(" turns around it, times "),
        Number(own),
        Say(", come to "),
        Number(around.saturating_mul(own)),
        Say(": the most is "),
        Number(TURN_LIMIT),
    ])
}

// What the rule is about, at this word.
fn put_reason(
    alloc: Global,
    page: &mut Page,
    declared: &Declared,
    header: &TextLine,
    there: &Part,
    broken: &Broken,
) -> Result<(), OutOfMemory> {
    let word = bytes_of(declared.text, there);
    let kind = text_of(header.word(declared.text, 2));
    match broken.code {
        1 => put_registers(page, word),
        2 => put_kind(page, word, kind),
        3 => declared.put_width(page, number_in(word)),
        4 => put_keys(page, word, header.word(declared.text, 3)),
        7 => page.line(&[
            Say("this is statement number "),
            Number(u64::from(broken.at).saturating_add(1)),
            Say(", counted from 1, and at most 1000 are allowed"),
        ]),
        8 => put_turns(alloc, page, declared.text, there),
        _ => put_around(alloc, page, declared.text, there.line),
    }
}

// ---- cures

const RECORDS: &[&str] = &[
    "in", "left", "right", "join", "first", "group", "x1", "x2", "x3",
];

// Words that may be meant instead.
fn instead(
    alloc: Global,
    declared: &Declared,
    there: &Part,
    broken: &Broken,
) -> Result<Vec<Bytes>, OutOfMemory> {
    let word = text_of(bytes_of(declared.text, there));
    let mut words = Vec::new(alloc);
    match broken.code {
        1 if word.starts_with("@") => words.push(Bytes::from_slice(alloc, b"@v31")?)?,
        1 if word.starts_with("r") => words.push(Bytes::from_slice(alloc, b"r7")?)?,
        1 => words.push(Bytes::from_slice(alloc, b"v31")?)?,
        2 => {
            for other in RECORDS {
                words.push(Bytes::from_slice(alloc, other.as_bytes())?)?;
            }
        }
        3 => {
            let digits = declared.fields.saturating_sub(1).to_string(alloc)?;
            words.push(Bytes::from_slice(alloc, digits.as_bytes())?)?;
        }
        4 => words.push(Bytes::from_slice(alloc, b"0")?)?,
        8 => {
            let around = turns_around(alloc, declared.text, there.line)?;
            if around > 0 {
                let digits = (TURN_LIMIT / around).to_string(alloc)?;
                words.push(Bytes::from_slice(alloc, digits.as_bytes())?)?;
            }
        }
        _ => {}
    }
    Ok(words)
}

fn put_instead(
    alloc: Global,
    page: &mut Page,
    declared: &Declared,
    there: &Part,
    broken: &Broken,
) -> Result<(), OutOfMemory> {
    let mut expected = Page::new(alloc);
    let mut cure = Page::new(alloc);
    for word in &instead(alloc, declared, there, broken)? {
        if heals(alloc, declared.text, there, word.bytes(), broken.line)? {
            if cure.is_empty() {
                put_mended(alloc, &mut cure, declared.text, there, word.bytes())?;
            }
            expected.add(&[Say(" "), Quote(word.bytes())])?;
        }
    }
    if broken.code == 2 && !expected.is_empty() {
        page.put(b"expected:")?;
        page.put(expected.bytes())?;
        page.put(b"\n")?;
    }
    page.put(cure.bytes())
}

// More fields at the top, if that helps.
fn put_more_fields(
    alloc: Global,
    page: &mut Page,
    text: &[u8],
    there: &Part,
    broken: &Broken,
) -> Result<(), OutOfMemory> {
    let field = number_in(bytes_of(text, there));
    let count = field.saturating_add(1).to_string(alloc)?;
    for line in &explain_words::places::lines_of(alloc, text)? {
        if line.word(text, 0) == b"fields".as_slice()
            && heals(alloc, text, &line.part(1), count.as_bytes(), broken.line)?
        {
            return put_mended(alloc, page, text, &line.part(1), count.as_bytes());
        }
    }
    Ok(())
}

// ---- all of it

fn put_at(
    alloc: Global,
    page: &mut Page,
    file: &[u8],
    declared: &Declared,
    header: &TextLine,
    line: u64,
    broken: &Broken,
) -> Result<(), OutOfMemory> {
    let words = words_of_line(alloc, declared.text, line)?;
    let at = faulty_place(declared.text, &words, broken.code);
    let Some(mark) = words.get(at) else {
        return Ok(());
    };
    let there = part_of(mark);
    put_place(page, file, declared.text, &there)?;
    page.put(b"in function ")?;
    page.put(broken.name.as_bytes())?;
    page.line(&[
        Say(" ("),
        Quote(header.word(declared.text, 2)),
        Say("), declared on line "),
        Number(header.number),
    ])?;
    page.line(&[Say(function_rule(broken.code))])?;
    put_reason(alloc, page, declared, header, &there, broken)?;
    put_instead(alloc, page, declared, &there, broken)?;
    if broken.code == 3 {
        put_more_fields(alloc, page, declared.text, &there, broken)?;
    }
    Ok(())
}

/// Appends where a function breaks a rule, and what may be there instead.
pub fn put_function_fault(
    alloc: Global,
    page: &mut Page,
    file: &[u8],
    text: &[u8],
    broken: &Broken,
) -> Result<(), OutOfMemory> {
    let declared = Declared::of(alloc, text)?;
    let nth = place_among(alloc, text, broken)?;
    let name = broken.name.as_bytes();
    if let (Some(header), Some(line)) = (
        declared.header(name, nth),
        statement_line(text, name, nth, broken.at),
    ) {
        put_at(alloc, page, file, &declared, header, line, broken)?;
    }
    page.line(&[
        Say("docs/faults.md, \"V"),
        Number(u64::from(broken.code)),
        Say("\""),
    ])
}
