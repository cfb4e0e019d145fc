//! The findings for an operator, as text.

ghost use Rattle.std.specs.Prelude.{◌≡◌, ◌++◌, ◌==◌, if◌then◌else◌, [], OnOk, IfOk, codes, decimal, length};
ghost use Rattle.pact_record.specs.declared.records.TheConstants.{MAX_FIELDS};
ghost use Rattle.plan_printer.specs.FoundText as texts;

use emit_bounds::MANY;
use pact_record::{Bytes, Fields, MAX_FIELDS, OutOfMemory};
use reorder_pair::Found;
use std::alloc::Global;

/// Appends a number in decimal digits. Out of memory is the only error.
pub fn push_number(alloc: Global, text: &mut Bytes, number: u64) -> Result<(), OutOfMemory>
    ensures { OnOk result (text.new ≡ text.old ++ decimal number) }
{
    let digits = number.to_string(alloc)?;
    text.extend_from_slice(digits.as_bytes())
}

// Appends a number to a list, after a comma unless it is the first.
fn push_listed(alloc: Global, text: &mut Bytes, number: u32) -> Result<(), OutOfMemory>
    ensures { OnOk result (text.new ≡ text.old ++ ((if length text.old == 0 then [] else codes ",") ++ decimal number)) }
{
    if text.len() > 0 {
        text.extend_from_slice(b",")?;
    }
    push_number(alloc, text, u64::from(number))
}

// The fields of a set, without its braces.
fn fields_text(alloc: Global, set: Fields) -> Result<Bytes, OutOfMemory>
    ensures { IfOk result (λ text. text ≡ texts.with_commas (texts.rising_fields set MAX_FIELDS)) }
{
    let mut text = Bytes::new(alloc);
    for field in 0..MAX_FIELDS {
        if set.has(field) {
            push_listed(alloc, &mut text, field)?;
        }
    }
    Ok(text)
}

// Appends the words for a set, and the set.
pub(crate) fn push_set(
    alloc: Global,
    text: &mut Bytes,
    what: &[u8],
    set: Fields,
) -> Result<(), OutOfMemory>
    ensures { OnOk result (text.new ≡ text.old ++ (what.now ++ texts.set_text set)) }
{
    text.extend_from_slice(what)?;
    text.extend_from_slice(b"{")?;
    text.extend_from_slice(fields_text(alloc, set)?.bytes())?;
    text.extend_from_slice(b"}")
}

fn push_bound(alloc: Global, text: &mut Bytes, bound: u32) -> Result<(), OutOfMemory>
    ensures { OnOk result (text.new ≡ text.old ++ texts.bound_text bound) }
{
    if bound == MANY {
        text.extend_from_slice(b"many")
    } else {
        push_number(alloc, text, u64::from(bound))
    }
}

fn push_bounds(alloc: Global, text: &mut Bytes, found: &Found) -> Result<(), OutOfMemory>
    ensures { OnOk result (text.new ≡ text.old ++ texts.bounds_text found.now) }
{
    text.extend_from_slice(b" emit ")?;
    push_bound(alloc, text, found.lo)?;
    text.extend_from_slice(b"..")?;
    push_bound(alloc, text, found.hi)
}

/// The word for the sides on which a CoGroup is anchored.
pub fn anchor_word(left: bool, right: bool) -> &'static str
    ensures { result.now ≡ texts.anchor_word left right }
{
    match (left, right) {
        (true, true) => "both",
        (true, false) => "left",
        (false, true) => "right",
        (false, false) => "none",
    }
}

/// The findings for an operator as one text without a line end. Fields are in rising order. A number of records at
/// which counting stops is printed as `many`. Out of memory is the only error.
pub fn found_text(alloc: Global, found: &Found) -> Result<Bytes, OutOfMemory>
    ensures { IfOk result (λ text. text ≡ texts.found_text found.now) }
{
    let sets = found.sets;
    let mut text = Bytes::new(alloc);
    push_set(alloc, &mut text, b"reads ", sets.reads)?;
    push_set(alloc, &mut text, b" writes ", sets.writes)?;
    push_set(alloc, &mut text, b" control ", sets.control)?;
    push_set(alloc, &mut text, b" touched ", sets.touched)?;
    push_bounds(alloc, &mut text, found)?;
    text.extend_from_slice(b" anchor ")?;
    text.extend_from_slice(anchor_word(sets.anchor_left, sets.anchor_right).as_bytes())?;
    Ok(text)
}
