//! What the explanation of a text fault says of its word, apart from what may be there instead.

ghost use Rattle.std.specs.Prelude.{◌≡◌, ◌≤◌, ◌<◌, ◌⊎◌, ◌++◌, ◌&&◌, ◌==◌, OnOk, length, nat_lt};
ghost use Rattle.explain_words.specs.Places.{line_at};
ghost use Rattle.explain_words.specs.Ranges.{range_text};

use crate::pages::Piece::{Number, Quote, Say};
use crate::pages::text_of;
use crate::places::{bytes_of, line_around, lines_of, place_at};
use crate::{Page, Part, TextLine, hints};
use pact_record::OutOfMemory;
use std::alloc::Global;

/// The number of fields that the text gives its records, or 0.
pub fn field_count(alloc: Global, text: &[u8]) -> Result<u64, OutOfMemory> {
    for line in &lines_of(alloc, text)? {
        if line.word(text, 0) == b"fields".as_slice() {
            return Ok(text_of(line.word(text, 1)).parse::<u64>().unwrap_or(0));
        }
    }
    Ok(0)
}

// Whether the numbers are the fields of a program that has this number of fields.
fn are_fields(low: u64, high: u64, fields: u64) -> bool
    ensures { result ≡ ((low == 0) && ((high == 255) && nat_lt 0 fields)) }
{
    low == 0 && (high == 255 && fields > 0)
}

// Whether the numbers are those of fields that a program may have.
fn are_counts(low: u64, high: u64) -> bool
    ensures { result ≡ ((low == 1) && (high == 64)) }
{
    low == 1 && high == 64
}

/// Appends a range of numbers that may be there. `fields` is the number of fields, and `is_key` says that the number is
/// a key's place.
pub fn put_range(
    page: &mut Page,
    low: u64,
    high: u64,
    fields: u64,
    is_key: bool,
) -> Result<(), OutOfMemory>
    ensures { OnOk result (page.new ≡ page.old ++ range_text low high fields is_key) }
{
    if is_key {
        page.put(b"the place of a key (0 for the first one)")
    } else if are_fields(low, high, fields) {
        page.put(b"a field (0 to ")?;
        page.put_number(fields - 1)?;
        page.put(b")")
    } else if are_counts(low, high) {
        page.put(b"a number of fields (1 to 64, or with `pact 2` 1 to 128)")
    } else {
        page.put(b"a number, ")?;
        page.put_number(low)?;
        page.put(b" to ")?;
        page.put_number(high)
    }
}

/// Appends which word is at fault.
pub fn put_word(page: &mut Page, text: &[u8], there: &Part, what: u32) -> Result<(), OutOfMemory> {
    let word = bytes_of(text, there);
    if text.is_empty() {
        return page.line(&[Say("the file is empty")]);
    }
    if word.is_empty() {
        return page.line(&[Say(if what == 4 || there.from < text.len() {
            "the missing word belongs here"
        } else {
            "the text ends here"
        })]);
    }
    if text.starts_with(b"\xEF\xBB\xBF") && there.from == 0 {
        return page.line(&[Say("the file begins with a byte-order mark: save it without one")]);
    }
    page.line(&[Say("the word at fault is "), Quote(word)])
}

/// What is usually meant by the word, in a line with that first word.
pub fn usual_hint(what: u32, first: &str, word: &str) -> Option<&'static str> {
    match what {
        1 => hints::byte(word),
        2 => hints::literal(word),
        3 => hints::first_word(word),
        5 => hints::left_over(first, word),
        6 => hints::name(word),
        7 | 8 => hints::operand(first, word),
        9 => hints::operation(word),
        12 => Some(
            "a program begins with the line `pact 1` or `pact 2`, and then the line `fields F`",
        ),
        _ => None,
    }
}

// How many bytes are before the part on its line.
fn blanks_before(text: &[u8], there: &Part) -> usize {
    let (start, _) = line_around(text, there.from);
    there.from.saturating_sub(start)
}

/// Appends which line an `end` closes, the first line of the innermost open block, and whether both have the same
/// indentation.
pub fn put_end(
    page: &mut Page,
    text: &[u8],
    lines: &[TextLine],
    end: &TextLine,
    open: u64,
) -> Result<(), OutOfMemory> {
    for line in lines {
        if line.number == open {
            let slants = blanks_before(text, &line.part(0)) != blanks_before(text, &end.part(0));
            page.line(&[
                Say("the end on line "),
                Number(end.number),
                Say(" closes the "),
                Quote(line.word(text, 0)),
                Say(" on line "),
                Number(open),
                Say(if slants {
                    ", but isn't indented like it"
                } else {
                    ""
                }),
            ])?;
        }
    }
    Ok(())
}

/// Appends whether an end is missing above, or a function's first line.
pub fn put_side(
    page: &mut Page,
    text: &[u8],
    there: &Part,
    is_open: bool,
) -> Result<(), OutOfMemory> {
    match hints::form(text_of(bytes_of(text, there))) {
        Some(_) if is_open => page.line(&[Say(
            "a function is still open here: an end is missing above",
        )]),
        Some(_) => page.line(&[Say(
            "a statement belongs between a function's line and its end: above there may be an end too many, or one too early",
        )]),
        None => Ok(()),
    }
}

/// The part to show: itself, or at the text's end the end of the last line that isn't empty.
pub fn shown_part(text: &[u8], there: &Part) -> Part
    ensures before { result.from ≤ there.now.from }
    ensures same { there.now.from < length text.now → result.from ≡ there.now.from }
    ensures line { ((result.from ≡ there.now.from) × (result.from < length text.now) × (result.line ≡ there.now.line))
        ⊎ (result.line ≡ line_at result.from text.now) }
{
    if there.from < text.len() {
        return *there;
    }
    let cut = text.trim_ascii_end().len();
    let (line, _) = place_at(text, cut);
    Part {
        line,
        from: cut,
        to: cut,
    }
}

/// Appends where `docs/faults.md` speaks of the fault.
pub fn put_text_page(page: &mut Page, what: u32) -> Result<(), OutOfMemory> {
    page.line(&[
        Say("docs/faults.md, \"Text fault "),
        Number(u64::from(what)),
        Say("\""),
    ])
}
