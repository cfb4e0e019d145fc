//! Faults of a program's text.

ghost use Rattle.std.specs.Prelude.{◌≡◌, ◌++◌, ◌∷◌, IfOk, OnOk, List, ℕ, Bool, true};
ghost use Rattle.text_marks.specs.Expecting.{LeavesNoneOut};
ghost use Rattle.text_marks.specs.Marks.{AreExpected};
ghost use Rattle.text_marks.specs.TextParts.{IsInside};
ghost use Rattle.explain_report.specs.Explaining.{IsSpot, lists_words};
ghost use Rattle.explain_report.specs.Printing.{IsPrinted, expected_line, item_text, others_text};

use crate::explanations::Spot;
use crate::trials::{mark_of, mended, mends, part_of, put_mended};
use explain_words::faults::text_fault;
use explain_words::pages::Piece::{Number, Quote, Say};
use explain_words::pages::text_of;
use explain_words::places::{bytes_of, lines_of, put_place};
use explain_words::spelling::meant_words;
use explain_words::text_faults::{
    field_count, put_end, put_range, put_side, put_text_page, put_word, shown_part, usual_hint,
};
use explain_words::{Page, Part, hints};
use pact_record::{Bytes, OutOfMemory};
use std::alloc::Global;
use text_marks::{
    Expected, ExpectedList, Fault, Mark, cures, expected_at, fault_mark, open_blocks, words_of_line,
};

// ---- what may be there

fn put_item(page: &mut Page, item: &Expected, fields: u64, is_key: bool) -> Result<(), OutOfMemory>
    ensures { OnOk result (page.new ≡ page.old ++ item_text fields is_key item.now) }
{
    match item {
        Expected::Word(word) => page.put(word),
        Expected::ValueRegister => page.put(b"a value register (v0 to v31)"),
        Expected::RecordRegister => page.put(b"a record register (r0 to r7)"),
        Expected::Loop(number) => {
            page.put(b"x")?;
            page.put_number(u64::from(*number))
        }
        Expected::Number { low, high } => put_range(page, *low, *high, fields, is_key),
        Expected::Signed => {
            page.put(b"a whole number (-9223372036854775808 to 9223372036854775807)")
        }
        Expected::Literal => page.put(b"a literal between \" and \""),
        Expected::Name => {
            page.put(b"a name (small letters, digits and _, a letter first, at most 32 in all)")
        }
        Expected::FileName => {
            page.put(b"a file name (letters, digits and . _ - /, at most 200 in all)")
        }
        Expected::Column => page.put(b"a column (int:N or text:N with a field N)"),
        Expected::FieldRegister => page.put(b"a value register right after the @ (@v0 to @v31)"),
        Expected::LineEnd => page.put(b"the line's end"),
    }
}

// Appends an item that isn't the first, and what joins it to the one before. The items after it are `more`.
fn put_other(
    page: &mut Page,
    item: &Expected,
    more: &[Expected],
    fields: u64,
    is_key: bool,
) -> Result<(), OutOfMemory>
    ensures { OnOk result
        (page.new ++ others_text fields is_key more.now
        ≡ page.old ++ others_text fields is_key (item.now ∷ more.now)) }
{
    if more.is_empty() {
        page.put(b" or ")?;
        return put_item(page, item, fields, is_key);
    }
    page.put(b", ")?;
    put_item(page, item, fields, is_key)
}

fn put_others(
    page: &mut Page,
    items: &[Expected],
    fields: u64,
    is_key: bool,
) -> Result<(), OutOfMemory>
    ensures { OnOk result (page.new ≡ page.old ++ others_text fields is_key items.now) }
{
    let mut rest = items;
    while let Some((item, more)) = rest.split_first() {
        put_other(page, item, more, fields, is_key)?;
        rest = more;
    }
    Ok(())
}

// Appends the line that lists items, or nothing without an item.
fn put_list(
    page: &mut Page,
    items: &[Expected],
    fields: u64,
    is_key: bool,
) -> Result<(), OutOfMemory>
    ensures { OnOk result (page.new ≡ page.old ++ expected_line fields is_key items.now) }
{
    let Some((first, others)) = items.split_first() else {
        return Ok(());
    };
    page.put(b"expected: ")?;
    put_item(page, first, fields, is_key)?;
    put_others(page, others, fields, is_key)?;
    page.put(b"\n")
}

fn put_expected(
    alloc: Global,
    page: &mut Page,
    text: &[u8],
    line: u64,
    list: &ExpectedList,
) -> Result<(), OutOfMemory>
    ensures { OnOk result
        ((fields : ℕ) × (is_key : Bool) × (page.new ≡ page.old ++ expected_line fields is_key list.now)) }
{
    let fields = field_count(alloc, text)?;
    // a key's place is wanted in `vD = key K`; elsewhere `key` is a name
    let is_key = word_in(alloc, text, line, 1)? == "=" && word_in(alloc, text, line, 2)? == "key";
    put_list(page, list.items(), fields, is_key)
}

// The word of a line at that place, counted from 0, or none.
fn word_in<'a>(
    alloc: Global,
    text: &'a [u8],
    line: u64,
    at: usize,
) -> Result<&'a str, OutOfMemory> {
    let words = words_of_line(alloc, text, line)?;
    match words.get(at) {
        Some(mark) => Ok(text_of(bytes_of(text, &part_of(mark)))),
        None => Ok(""),
    }
}

fn put_form(
    alloc: Global,
    page: &mut Page,
    text: &[u8],
    there: &Part,
    what: u32,
) -> Result<(), OutOfMemory> {
    let first = word_in(alloc, text, there.line, 0)?;
    let is_assignment = first.starts_with("v") || first.starts_with("r");
    if what < 4 || what == 10 || what == 12 {
        return Ok(());
    }
    match hints::form(first) {
        Some(form) => page.line(&[Say("such a line is written: "), Say(form)]),
        None if is_assignment => page.line(&[
            Say("such a line is written: "),
            Say(hints::assignment(word_in(alloc, text, there.line, 2)?)),
        ]),
        None => Ok(()),
    }
}

// ---- cures

// Appends a cure if the word mends the text.
fn put_cure(
    alloc: Global,
    page: &mut Page,
    text: &[u8],
    there: &Part,
    word: &[u8],
) -> Result<bool, OutOfMemory> {
    if word.is_empty() || word == bytes_of(text, there) || !mends(alloc, text, there, word)? {
        return Ok(false);
    }
    put_mended(alloc, page, text, there, word)?;
    Ok(true)
}

fn put_meant(alloc: Global, page: &mut Page, text: &[u8], there: &Part) -> Result<(), OutOfMemory> {
    for word in &meant_words(alloc, bytes_of(text, there))? {
        if put_cure(alloc, page, text, there, word.bytes())? {
            return Ok(());
        }
    }
    Ok(())
}

// The words after the first one in another order, if that mends the text.
fn put_in_order(alloc: Global, page: &mut Page, text: &[u8], line: u64) -> Result<(), OutOfMemory> {
    let words = words_of_line(alloc, text, line)?;
    let (Some(second), Some(third), Some(fourth)) = (words.get(1), words.get(2), words.get(3))
    else {
        return Ok(());
    };
    let (a, b, c) = (part_of(second), part_of(third), part_of(fourth));
    let there = Part {
        line,
        from: a.from,
        to: c.to,
    };
    for order in [[a, c, b], [b, a, c], [b, c, a], [c, a, b], [c, b, a]] {
        let mut all = Bytes::new(alloc);
        for (at, word) in order.iter().enumerate() {
            if at > 0 {
                all.extend_from_slice(b" ")?;
            }
            all.extend_from_slice(bytes_of(text, word))?;
        }
        if put_cure(alloc, page, text, &there, all.bytes())? {
            return Ok(());
        }
    }
    Ok(())
}

fn put_cures(
    alloc: Global,
    page: &mut Page,
    text: &[u8],
    there: &Part,
    what: u32,
) -> Result<(), OutOfMemory> {
    let word = bytes_of(text, there);
    if there.to < there.from || text.len() < there.to {
        return Ok(());
    }
    if word.is_empty() || what == 1 || what == 2 {
        return Ok(());
    }
    let found = cures(alloc, text, &mark_of(there))?;
    for other in &found.words {
        put_mended(alloc, page, text, there, other)?;
    }
    if found.deletes && what == 5 {
        put_mended(alloc, page, text, there, b"")?;
    }
    if found.deletes && what == 10 {
        page.line(&[Say("cure: delete the line")])?;
    }
    if found.words.is_empty() {
        put_meant(alloc, page, text, there)?;
    }
    if word_in(alloc, text, there.line, 0)? == "set" && (what == 7 || what == 8) {
        put_in_order(alloc, page, text, there.line)?;
    }
    Ok(())
}

// ---- blocks

// Appends the blocks that are open before a line, and which end before it closes which block.
fn put_blocks(alloc: Global, page: &mut Page, text: &[u8], line: u64) -> Result<(), OutOfMemory> {
    let lines = lines_of(alloc, text)?;
    let open = open_blocks(alloc, text, line)?;
    // only the innermost blocks: a text may have 64 of them
    let shown_from = open.len().saturating_sub(8);
    for there in &lines {
        if open[shown_from..].contains(&there.number) {
            page.line(&[
                Say("still open here: line "),
                Number(there.number),
                Say(", "),
                Quote(bytes_of(
                    text,
                    &Part {
                        line: there.number,
                        from: there.part(0).from,
                        to: there.part(there.words.len()).to,
                    },
                )),
            ])?;
        }
    }
    if open.is_empty() {
        page.line(&[Say("no function or block is open here")])?;
    }
    let from = open.first().copied().unwrap_or(0);
    let mut shown = 0u32;
    for there in &lines {
        let is_end = there.word(text, 0) == b"end".as_slice();
        if is_end && from < there.number && there.number < line && shown < 8 {
            let blocks = open_blocks(alloc, text, there.number)?;
            if let Some(last) = blocks.last() {
                put_end(page, text, &lines, there, *last)?;
            }
            shown = shown.saturating_add(1);
        }
    }
    Ok(())
}

// ---- all of it

// Whether it is listed what may be there instead.
fn lists_words(what: u32, text: &[u8], mark: &Mark) -> bool
    ensures { result ≡ lists_words what text.now mark.now }
{
    !(what == 1 || what == 2 || what == 10) && (what != 12 || mark.from < text.len())
}

fn items_at(alloc: Global, text: &[u8], what: u32, mark: &Mark) -> Result<ExpectedList, OutOfMemory>
    requires { IsInside text.now mark.now.from mark.now.to }
    ensures right { IfOk result (λ items. AreExpected mark.now.from mark.now.to text.now items) }
    ensures whole { IfOk result (λ items. lists_words what text.now mark.now ≡ true
        → LeavesNoneOut mark.now.from mark.now.to text.now items) }
{
    if lists_words(what, text, mark) {
        let items = expected_at(alloc, text, mark)?;
        return Ok(items);
    }
    Ok(ExpectedList::new(alloc))
}

/// The part of the text that has this fault, and what may be there instead.
pub fn spot_of(alloc: Global, text: &[u8], fault: Fault) -> Result<Spot, OutOfMemory>
    ensures { IfOk result (IsSpot text.now fault) }
{
    let mark = fault_mark(alloc, text, fault.line, fault.what)?;
    let expected = items_at(alloc, text, fault.what, &mark)?;
    Ok(Spot { mark, expected })
}

// Appends what is usually meant, what is open there, how such a line is written, and what mends the text.
fn put_advice(
    alloc: Global,
    page: &mut Page,
    text: &[u8],
    there: &Part,
    what: u32,
) -> Result<(), OutOfMemory> {
    let first = word_in(alloc, text, there.line, 0)?;
    if let Some(words) = usual_hint(what, first, text_of(bytes_of(text, there))) {
        page.line(&[Say(words)])?;
    }
    if what == 3 || what == 10 || what == 11 {
        let is_end = there.from == there.to;
        let line = there.line;
        put_blocks(
            alloc,
            page,
            text,
            if is_end { line.saturating_add(1) } else { line },
        )?;
    }
    if what == 3 {
        let is_open = !open_blocks(alloc, text, there.line)?.is_empty();
        put_side(page, text, there, is_open)?;
    }
    put_form(alloc, page, text, there, what)?;
    put_cures(alloc, page, text, there, what)?;
    put_text_page(page, what)
}

/// Appends where a text is faulty, and what may be there instead.
pub fn put_text_fault(
    alloc: Global,
    page: &mut Page,
    file: &[u8],
    text: &[u8],
    what: u32,
    spot: &Spot,
) -> Result<(), OutOfMemory>
    ensures { OnOk result
        ((below : List ℕ) × (page.new ≡ page.old ++ below) × IsPrinted file.now text.now spot.now below) }
{
    let there = part_of(&spot.mark);
    let shown = shown_part(text, &there);
    put_place(page, file, text, &shown)?;
    let mut between = Page::new(alloc);
    between.line(&[Say(text_fault(what))])?;
    put_word(&mut between, text, &there, what)?;
    page.put(between.bytes())?;
    put_expected(alloc, page, text, there.line, &spot.expected)?;
    let mut after = Page::new(alloc);
    put_advice(alloc, &mut after, text, &there, what)?;
    page.put(after.bytes())
}
