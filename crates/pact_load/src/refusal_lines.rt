//! The lines for refusals that a program's text, its rules and the rows of its sources decide.

ghost use Rattle.std.specs.Prelude.{◌≡◌, ◌++◌, OnOk, IfOk, decimal};
ghost use Rattle.pact_load.specs.Answers.{Says};
ghost use Rattle.pact_load.specs.RefusalLines as lines;

use crate::refusals::Refusal;
use pact_record::{Bytes, OutOfMemory};
use std::alloc::Global;

fn long_line(alloc: Global, name: &[u8], limit: u64) -> Result<Bytes, OutOfMemory>
    ensures { IfOk result (λ line. line ≡ lines.long_line name.now limit) }
{
    let mut line = Bytes::from_slice(alloc, name)?;
    push_numbered(alloc, &mut line, b" is longer than ", limit)?;
    line.extend_from_slice(b" bytes\n")?;
    Ok(line)
}

// Appends `front` and then a number, in decimal digits.
fn push_numbered(
    alloc: Global,
    line: &mut Bytes,
    front: &[u8],
    number: u64,
) -> Result<(), OutOfMemory>
    ensures { OnOk result (line.new ≡ line.old ++ (front.now ++ decimal number)) }
{
    let digits = number.to_string(alloc)?;
    line.extend_from_slice(front)?;
    line.extend_from_slice(digits.as_bytes())
}

// The part of a line after the name of a faulty text.
fn fault_text(alloc: Global, number: u64, what: u32) -> Result<Bytes, OutOfMemory>
    ensures { IfOk result (λ text. text ≡ lines.fault_text number what) }
{
    let mut text = Bytes::new(alloc);
    push_numbered(alloc, &mut text, b":", number)?;
    push_numbered(alloc, &mut text, b": text fault ", u64::from(what))?;
    text.extend_from_slice(b"\n")?;
    Ok(text)
}

fn text_line(alloc: Global, name: &[u8], number: u64, what: u32) -> Result<Bytes, OutOfMemory>
    ensures { IfOk result (λ line. line ≡ lines.text_line name.now number what) }
{
    let mut line = Bytes::from_slice(alloc, name)?;
    line.extend_from_slice(fault_text(alloc, number, what)?.bytes())?;
    Ok(line)
}

// The part of a line after the name of a function that breaks a rule.
fn break_text(alloc: Global, code: u32, at: u32) -> Result<Bytes, OutOfMemory>
    ensures { IfOk result (λ text. text ≡ lines.break_text code at) }
{
    let mut text = Bytes::new(alloc);
    push_numbered(alloc, &mut text, b": V", u64::from(code))?;
    push_numbered(alloc, &mut text, b" at statement ", u64::from(at))?;
    text.extend_from_slice(b"\n")?;
    Ok(text)
}

fn function_line(alloc: Global, name: &[u8], code: u32, at: u32) -> Result<Bytes, OutOfMemory>
    ensures { IfOk result (λ line. line ≡ lines.function_line name.now code at) }
{
    let mut line = Bytes::from_slice(alloc, b"function ")?;
    line.extend_from_slice(name)?;
    line.extend_from_slice(break_text(alloc, code, at)?.bytes())?;
    Ok(line)
}

// The name to print: `program` if the name is empty, because a program without exactly one sink has no declaration to
// name.
fn name_or_program(name: &[u8]) -> &[u8]
    ensures { result.now ≡ lines.told_name name.now }
{
    if name.is_empty() { b"program" } else { name }
}

fn program_line(alloc: Global, name: &[u8], code: u32) -> Result<Bytes, OutOfMemory>
    ensures { IfOk result (λ line. line ≡ lines.program_line name.now code) }
{
    let mut line = Bytes::from_slice(alloc, name_or_program(name))?;
    push_numbered(alloc, &mut line, b": P", u64::from(code))?;
    line.extend_from_slice(b"\n")?;
    Ok(line)
}

fn unnamed_line(alloc: Global, name: &[u8]) -> Result<Bytes, OutOfMemory>
    ensures { IfOk result (λ line. line ≡ lines.unnamed_line name.now) }
{
    let mut line = Bytes::from_slice(alloc, name)?;
    line.extend_from_slice(b": P11\n")?;
    Ok(line)
}

// The part of a line after the name of a source with a bad row.
fn row_text(alloc: Global, row: u64, column: u32, why: u32) -> Result<Bytes, OutOfMemory>
    ensures { IfOk result (λ text. text ≡ lines.row_text row column why) }
{
    let mut text = Bytes::new(alloc);
    push_numbered(alloc, &mut text, b": row ", row)?;
    push_numbered(alloc, &mut text, b" column ", u64::from(column))?;
    push_numbered(alloc, &mut text, b": why ", u64::from(why))?;
    text.extend_from_slice(b"\n")?;
    Ok(text)
}

fn source_line(
    alloc: Global,
    name: &[u8],
    row: u64,
    column: u32,
    why: u32,
) -> Result<Bytes, OutOfMemory>
    ensures { IfOk result (λ line. line ≡ lines.source_line name.now row column why) }
{
    let mut line = Bytes::from_slice(alloc, b"source ")?;
    line.extend_from_slice(name)?;
    line.extend_from_slice(row_text(alloc, row, column, why)?.bytes())?;
    Ok(line)
}

/// The refusal of a file with more than `limit` bytes.
pub fn too_long(alloc: Global, name: &[u8], limit: u64) -> Refusal
    ensures { Says 8 (lines.long_line name.now limit) result }
{
    match long_line(alloc, name, limit) {
        Ok(line) => Refusal::Decided { status: 8, line },
        Err(OutOfMemory) => Refusal::OutOfMemory,
    }
}

/// The refusal of a text that is faulty at a line.
pub fn bad_text(alloc: Global, name: &[u8], number: u64, what: u32) -> Refusal
    ensures { Says 5 (lines.text_line name.now number what) result }
{
    match text_line(alloc, name, number, what) {
        Ok(line) => Refusal::Decided { status: 5, line },
        Err(OutOfMemory) => Refusal::OutOfMemory,
    }
}

/// The refusal of a function that breaks a rule at a statement.
pub fn bad_function(alloc: Global, name: &[u8], code: u32, at: u32) -> Refusal
    ensures { Says 6 (lines.function_line name.now code at) result }
{
    match function_line(alloc, name, code, at) {
        Ok(line) => Refusal::Decided { status: 6, line },
        Err(OutOfMemory) => Refusal::OutOfMemory,
    }
}

/// The refusal of a declaration that breaks a rule.
pub fn bad_program(alloc: Global, name: &[u8], code: u32) -> Refusal
    ensures { Says 6 (lines.program_line name.now code) result }
{
    match program_line(alloc, name, code) {
        Ok(line) => Refusal::Decided { status: 6, line },
        Err(OutOfMemory) => Refusal::OutOfMemory,
    }
}

/// The refusal of a source name that no source of the program has.
pub fn unnamed_source(alloc: Global, name: &[u8]) -> Refusal
    ensures { Says 6 (lines.unnamed_line name.now) result }
{
    match unnamed_line(alloc, name) {
        Ok(line) => Refusal::Decided { status: 6, line },
        Err(OutOfMemory) => Refusal::OutOfMemory,
    }
}

/// The refusal of a source with a bad row.
pub fn bad_row(alloc: Global, name: &[u8], row: u64, column: u32, why: u32) -> Refusal
    ensures { Says 7 (lines.source_line name.now row column why) result }
{
    match source_line(alloc, name, row, column, why) {
        Ok(line) => Refusal::Decided { status: 7, line },
        Err(OutOfMemory) => Refusal::OutOfMemory,
    }
}
