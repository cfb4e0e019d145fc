//! What may be at a place, found by trying samples.

ghost use Rattle.std.specs.Prelude.{◌≡◌, ◌≤◌, ◌<◌, ◌++◌, IfOk, IsTrue, OnOk, codes, decimal, map, true};
ghost use Rattle.std.specs.Bool.{OnTrue};
ghost use Rattle.std.specs.List.{AllByRecursion};
ghost use Rattle.text_marks.specs.Expecting.{BeginsLine, Extends, HasAllWords, HasLoops, HasLoopsBelow, HasNumbers, HasOpenLoops, HasWords, IsListed, IsListedOrRefused, IsNextLoop, IsRefused, LeavesNoneOut, ListsEnd, TellsEnd};
ghost use Rattle.text_marks.specs.Marks.{AreExpected, EndsRange, IsAccepted, IsFixedItem, TellsAccepted, has_one_sample};
ghost use Rattle.text_marks.specs.Samples.{sample_of};
ghost use Rattle.text_marks.specs.TextParts.{IsInside};
ghost use Rattle.text_marks.specs.Vocabulary.{IsFixedWord};

use crate::bounds::{line_bounds, line_number};
use crate::expected::{Expected, ExpectedList, sample};
use crate::functions::open_loops;
use crate::marks::Mark;
use crate::trials::{fault_up_to, is_accepted};
use crate::vocabulary::fixed_words;
use crate::words::next_word;
use pact_record::{Bytes, OutOfMemory};
use std::alloc::Global;
use tac_syntax::MAX_NESTING;

// Whether a sample of the item is accepted.
fn fits(alloc: Global, text: &[u8], mark: &Mark, item: Expected) -> Result<bool, OutOfMemory>
    requires { IsInside text.now mark.now.from mark.now.to }
    ensures { IfOk result (TellsAccepted mark.now.from mark.now.to (sample_of item) text.now) }
{
    let word = sample(alloc, item)?;
    is_accepted(alloc, text, mark, word.bytes())
}

fn is_number_accepted(
    alloc: Global,
    text: &[u8],
    mark: &Mark,
    number: u64,
) -> Result<bool, OutOfMemory>
    requires { IsInside text.now mark.now.from mark.now.to }
    ensures { IfOk result (TellsAccepted mark.now.from mark.now.to (decimal number) text.now) }
{
    let digits = number.to_string(alloc)?;
    is_accepted(alloc, text, mark, digits.as_bytes())
}

// Adds the item if a sample of it is accepted.
fn try_item(
    alloc: Global,
    text: &[u8],
    mark: &Mark,
    item: Expected,
    found: &mut ExpectedList,
) -> Result<(), OutOfMemory>
    requires inside { IsInside text.now mark.now.from mark.now.to }
    requires sample { has_one_sample item ≡ true }
    requires fixed { IsFixedItem item }
    ensures more { OnOk result (Extends mark.now.from mark.now.to text.now found.old found.new) }
    ensures tried { OnOk result (IsListedOrRefused mark.now.from mark.now.to text.now found.new (sample_of item)) }
{
    if fits(alloc, text, mark, item)? {
        found.push(item)?;
    }
    Ok(())
}

// Adds each of the words that is accepted.
fn try_words(
    alloc: Global,
    text: &[u8],
    mark: &Mark,
    words: &[&'static [u8]],
    found: &mut ExpectedList,
) -> Result<(), OutOfMemory>
    requires inside { IsInside text.now mark.now.from mark.now.to }
    requires fixed { AllByRecursion IsFixedWord (map (λ word. word.now) words.now) }
    ensures more { OnOk result (Extends mark.now.from mark.now.to text.now found.old found.new) }
    ensures tried { OnOk result (AllByRecursion (IsListedOrRefused mark.now.from mark.now.to text.now found.new)
        (map (λ word. word.now) words.now)) }
{
    for word in words {
        try_item(alloc, text, mark, Expected::Word(*word), found)?;
    }
    Ok(())
}

// The last number of a range of accepted ones: by halving between `low`, which is accepted, and `high`, which isn't.
fn greatest_between(
    alloc: Global,
    text: &[u8],
    mark: &Mark,
    low: u64,
    high: u64,
) -> Result<u64, OutOfMemory>
    requires inside { IsInside text.now mark.now.from mark.now.to }
    requires order { low < high }
    requires low { IsAccepted mark.now.from mark.now.to (decimal low) text.now }
    requires high { IsRefused mark.now.from mark.now.to text.now (decimal high) }
    ensures accepted { IfOk result (λ number. IsAccepted mark.now.from mark.now.to (decimal number) text.now) }
    ensures ends { IfOk result (EndsRange mark.now.from mark.now.to text.now) }
{
    let mut best = low;
    let mut over = high;
    while over - best > 1 {
        let middle = best + (over - best) / 2;
        if is_number_accepted(alloc, text, mark, middle)? {
            best = middle;
        } else {
            over = middle;
        }
    }
    Ok(best)
}

// Twice the number, or the greatest one.
fn doubled(number: u64) -> u64
    requires { (1 ≤ number) × (number < 18446744073709551615) }
    ensures { number < result }
{
    if number <= u64::MAX / 2 {
        number * 2
    } else {
        u64::MAX
    }
}

// The last number of the range of accepted ones that begins with `low`: by doubling, and then by halving.
fn greatest(alloc: Global, text: &[u8], mark: &Mark, low: u64) -> Result<u64, OutOfMemory>
    requires inside { IsInside text.now mark.now.from mark.now.to }
    requires order { low ≤ 1 }
    requires low { IsAccepted mark.now.from mark.now.to (decimal low) text.now }
    ensures accepted { IfOk result (λ number. IsAccepted mark.now.from mark.now.to (decimal number) text.now) }
    ensures ends { IfOk result (EndsRange mark.now.from mark.now.to text.now) }
{
    let mut best = low;
    let mut next: u64 = 2;
    while next < u64::MAX {
        if !is_number_accepted(alloc, text, mark, next)? {
            return greatest_between(alloc, text, mark, best, next);
        }
        best = next;
        next = doubled(next);
    }
    if is_number_accepted(alloc, text, mark, u64::MAX)? {
        return Ok(u64::MAX);
    }
    greatest_between(alloc, text, mark, best, u64::MAX)
}

// Adds the range of accepted numbers from `low`, which is accepted.
fn add_range(
    alloc: Global,
    text: &[u8],
    mark: &Mark,
    low: u64,
    found: &mut ExpectedList,
) -> Result<(), OutOfMemory>
    requires inside { IsInside text.now mark.now.from mark.now.to }
    requires order { low ≤ 1 }
    requires low { IsAccepted mark.now.from mark.now.to (decimal low) text.now }
    ensures more { OnOk result (Extends mark.now.from mark.now.to text.now found.old found.new) }
    ensures listed { OnOk result (IsListed found.new (decimal low)) }
{
    let high = greatest(alloc, text, mark, low)?;
    found.push(Expected::Number { low, high })?;
    Ok(())
}

// Adds the range of accepted numbers, or that they may have a sign.
fn try_numbers(
    alloc: Global,
    text: &[u8],
    mark: &Mark,
    found: &mut ExpectedList,
) -> Result<(), OutOfMemory>
    requires inside { IsInside text.now mark.now.from mark.now.to }
    ensures more { OnOk result (Extends mark.now.from mark.now.to text.now found.old found.new) }
    ensures tried { OnOk result (HasNumbers mark.now.from mark.now.to text.now found.new) }
{
    if fits(alloc, text, mark, Expected::Signed)? {
        found.push(Expected::Signed)?;
        return Ok(());
    }
    if is_number_accepted(alloc, text, mark, 0)? {
        return add_range(alloc, text, mark, 0, found);
    }
    if is_number_accepted(alloc, text, mark, 1)? {
        return add_range(alloc, text, mark, 1, found);
    }
    Ok(())
}

// Adds the accepted ones of the loops' names below a number.
fn try_loops_below(
    alloc: Global,
    text: &[u8],
    mark: &Mark,
    end: u32,
    found: &mut ExpectedList,
) -> Result<(), OutOfMemory>
    requires inside { IsInside text.now mark.now.from mark.now.to }
    ensures more { OnOk result (Extends mark.now.from mark.now.to text.now found.old found.new) }
    ensures tried { OnOk result (HasLoopsBelow mark.now.from mark.now.to text.now end found.new) }
{
    for number in 1..end {
        try_item(alloc, text, mark, Expected::Loop(number), found)?;
    }
    Ok(())
}

// The first words of an `each` of this number.
fn each_words(alloc: Global, number: u32) -> Result<Bytes, OutOfMemory>
    ensures { IfOk result (λ words. words ≡ codes "each " ++ (codes "x" ++ decimal number)) }
{
    let name = sample(alloc, Expected::Loop(number))?;
    let mut words = Bytes::from_slice(alloc, b"each ")?;
    words.extend_from_slice(name.bytes())?;
    Ok(words)
}

// Whether an `each` on the marked line would have to have this number.
fn is_next_loop(alloc: Global, text: &[u8], mark: &Mark, number: u32) -> Result<bool, OutOfMemory>
    requires { IsInside text.now mark.now.from mark.now.to }
    ensures { IfOk result (λ next. IsTrue next → IsNextLoop mark.now.from text.now number) }
{
    let line = line_number(text, mark.from);
    let Some((start, _)) = line_bounds(text, line) else {
        return Ok(false);
    };
    let place = Mark {
        line,
        from: start,
        to: start,
    };
    let words = each_words(alloc, number)?;
    is_accepted(alloc, text, &place, words.bytes())
}

// The number of an `each` on the marked line, by the words that the lines before it begin with.
fn next_loop(alloc: Global, text: &[u8], mark: &Mark) -> Result<u32, OutOfMemory>
    requires { IsInside text.now mark.now.from mark.now.to }
    ensures { IfOk result (λ next. next ≤ 65) }
{
    let open = open_loops(alloc, text, line_number(text, mark.from))?;
    if open < MAX_NESTING {
        Ok(open + 1)
    } else {
        Ok(MAX_NESTING + 1)
    }
}

// Adds the names of loops that are accepted, if an `each` on the line would have this number. Where a record may be,
// only the names of open loops are tried: the reader takes any, but the rules of functions don't.
fn try_open_loops(
    alloc: Global,
    text: &[u8],
    mark: &Mark,
    next: u32,
    found: &mut ExpectedList,
) -> Result<(), OutOfMemory>
    requires inside { IsInside text.now mark.now.from mark.now.to }
    requires next { next ≤ 65 }
    ensures more { OnOk result (Extends mark.now.from mark.now.to text.now found.old found.new) }
    ensures tried { OnOk result (HasOpenLoops mark.now.from mark.now.to text.now next found.new) }
{
    if is_accepted(alloc, text, mark, b"in")? {
        return try_loops_below(alloc, text, mark, next, found);
    }
    try_loops_below(alloc, text, mark, next + 1, found)
}

// Adds the names of loops that are accepted.
fn try_loops(
    alloc: Global,
    text: &[u8],
    mark: &Mark,
    found: &mut ExpectedList,
) -> Result<(), OutOfMemory>
    requires inside { IsInside text.now mark.now.from mark.now.to }
    ensures more { OnOk result (Extends mark.now.from mark.now.to text.now found.old found.new) }
    ensures tried { OnOk result (HasLoops mark.now.from mark.now.to text.now found.new) }
{
    let next = next_loop(alloc, text, mark)?;
    if is_next_loop(alloc, text, mark, next)? {
        return try_open_loops(alloc, text, mark, next, found);
    }
    try_loops_below(alloc, text, mark, MAX_NESTING + 1, found)
}

// Whether no word of the line is before the mark.
fn begins_line(text: &[u8], mark: &Mark) -> bool
    requires { IsInside text.now mark.now.from mark.now.to }
    ensures { OnTrue result (BeginsLine mark.now.from text.now) }
{
    let line = line_number(text, mark.from);
    let Some((start, end)) = line_bounds(text, line) else {
        return true;
    };
    match next_word(text, line, start, end) {
        Some(first) => mark.from <= first.from,
        None => true,
    }
}

// Whether the line has words before the mark, and may end there.
fn may_end(alloc: Global, text: &[u8], mark: &Mark) -> Result<bool, OutOfMemory>
    requires { IsInside text.now mark.now.from mark.now.to }
    ensures { IfOk result (TellsEnd mark.now.from text.now) }
{
    if begins_line(text, mark) {
        return Ok(false);
    }
    match fault_up_to(alloc, text, mark.from)? {
        None => Ok(true),
        Some(fault) => Ok(line_number(text, mark.from) < fault.line),
    }
}

// What may be there where no name is wanted.
fn add_other(
    alloc: Global,
    text: &[u8],
    mark: &Mark,
    found: &mut ExpectedList,
) -> Result<(), OutOfMemory>
    requires inside { IsInside text.now mark.now.from mark.now.to }
    ensures more { OnOk result (Extends mark.now.from mark.now.to text.now found.old found.new) }
    ensures tried { OnOk result (HasAllWords mark.now.from mark.now.to text.now found.new) }
{
    try_words(alloc, text, mark, fixed_words(), found)?;
    try_item(alloc, text, mark, Expected::ValueRegister, found)?;
    try_item(alloc, text, mark, Expected::RecordRegister, found)?;
    try_loops(alloc, text, mark, found)?;
    try_numbers(alloc, text, mark, found)?;
    try_item(alloc, text, mark, Expected::FieldRegister, found)?;
    try_item(alloc, text, mark, Expected::Literal, found)?;
    try_item(alloc, text, mark, Expected::Column, found)?;
    Ok(())
}

// What may be there, other than the line's end.
fn add_words(
    alloc: Global,
    text: &[u8],
    mark: &Mark,
    found: &mut ExpectedList,
) -> Result<(), OutOfMemory>
    requires inside { IsInside text.now mark.now.from mark.now.to }
    ensures more { OnOk result (Extends mark.now.from mark.now.to text.now found.old found.new) }
    ensures tried { OnOk result (HasWords mark.now.from mark.now.to text.now found.new) }
{
    if fits(alloc, text, mark, Expected::FileName)? {
        found.push(Expected::FileName)?;
        return Ok(());
    }
    if fits(alloc, text, mark, Expected::Name)? {
        found.push(Expected::Name)?;
        return Ok(());
    }
    add_other(alloc, text, mark, found)
}

fn add_end(
    alloc: Global,
    text: &[u8],
    mark: &Mark,
    found: &mut ExpectedList,
) -> Result<(), OutOfMemory>
    requires inside { IsInside text.now mark.now.from mark.now.to }
    ensures more { OnOk result (Extends mark.now.from mark.now.to text.now found.old found.new) }
    ensures tried { OnOk result (ListsEnd mark.now.from text.now found.new) }
{
    if may_end(alloc, text, mark)? {
        found.push(Expected::LineEnd)?;
    }
    Ok(())
}

/// What may be instead of the marked part, found by trying each fixed word and a sample of each kind of word. Nothing
/// that is accepted is left out, except for names of loops that aren't open, which only the rules of functions refuse;
/// and the number above a listed range is refused. If a name is wanted, the list has only that: names may be anything,
/// fixed words too. An empty list says that an earlier part of the text is at fault. It says nothing about fault 1,
/// whose mark may be inside of a word or a comment.
pub fn expected_at(alloc: Global, text: &[u8], mark: &Mark) -> Result<ExpectedList, OutOfMemory>
    requires { IsInside text.now mark.now.from mark.now.to }
    ensures right { IfOk result (λ found. AreExpected mark.now.from mark.now.to text.now found) }
    ensures whole { IfOk result (λ found. LeavesNoneOut mark.now.from mark.now.to text.now found) }
{
    let mut found = ExpectedList::new(alloc);
    add_words(alloc, text, mark, &mut found)?;
    add_end(alloc, text, mark, &mut found)?;
    Ok(found)
}
