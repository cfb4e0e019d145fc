//! Functions, read from text.

ghost use Rattle.std.specs.Prelude.{◌≡◌, ◌≤◌, ◌<◌, ◌==◌, ◌⊎◌, ℕ, [], Some, IfErr, IfOk, length, drop};
ghost use Rattle.tac_syntax.specs.declared.functions.Function.{Function};
ghost use Rattle.tac_syntax.specs.Functions.{IsSpelledFunction};
ghost use Rattle.text_lines.specs.CanonicalLines.{AreLineWords};
ghost use Rattle.text_lines.specs.FirstFaults.{IsLineFault};
ghost use Rattle.text_lines.specs.TextLines.{lines_of};
ghost use Rattle.tac_text.specs.FunctionStates.{function_of, OpenData, GivesFunction, IsFunctionFault, LeadsLine, LeadsOn, place_at, state_of};
ghost use Rattle.tac_text.specs.FunctionFaults.{function_fault};
ghost use Rattle.tac_syntax.specs.FieldRegisters.{Takes, has_registers};
ghost use Rattle.tac_text.specs.FunctionLines.{FunctionAt};
ghost use Rattle.text_lines.specs.LineReading.{IsFaultOf};

use crate::open_functions::{OpenFunction, read_header};
use std::alloc::Global;
use tac_syntax::Function;
use text_lines::{LineWord, NotRead, TextFault, line_at, read_words, trim_line};

// Takes the words of one more line, and returns whether they were the function's own `end`.
fn take_words(
    alloc: Global,
    registers: bool,
    begun: &mut Option<OpenFunction>,
    words: &[LineWord],
) -> Result<bool, NotRead>
    requires some { 0 < length words.now }
    requires words { AreLineWords words.now }
    ensures taken { IfOk result (λ ended. LeadsOn registers ended words.now begun.old begun.new) }
    ensures fault { IfErr result (λ e. IsFaultOf e (function_fault (place_at registers (state_of begun.old)) words.now)) }
{
    match begun {
        Some(open) => open.read_line(alloc, registers, words),
        None => {
            *begun = Some(read_header(alloc, words)?);
            Ok(false)
        }
    }
}

// Takes one more line, and returns whether it was the function's own `end`.
fn take_line(
    alloc: Global,
    registers: bool,
    begun: &mut Option<OpenFunction>,
    line: &[u8],
) -> Result<bool, NotRead>
    ensures taken { IfOk result (λ ended. LeadsLine registers ended line.now begun.old begun.new) }
    ensures fault { IfErr result (λ e. IsLineFault (function_fault (place_at registers (state_of begun.old))) e line.now) }
{
    let words = read_words(alloc, trim_line(line))?;
    if words.words().is_empty() {
        return Ok(false);
    }
    take_words(alloc, registers, begun, words.words())
}

// The open function, whose `end` was read.
fn finished(begun: Option<OpenFunction>) -> Function
    requires { (o : OpenData) × (begun ≡ Some o) × (o.build.blocks ≡ []) }
    ensures { (o : OpenData) → begun ≡ Some o → result ≡ function_of o }
{
    match begun {
        Some(open) => open.finish(),
        None => unreachable!(),
    }
}

// The function whose text begins at offset `at`, and the offset after it. `registers` says whether registers may name
// fields.
fn read_with(
    alloc: Global,
    text: &[u8],
    registers: bool,
    at: usize,
) -> Result<(Function, usize), TextFault>
    requires { at ≤ length text.now }
    ensures function { IfOk result (λ r. FunctionAt registers r.0 text.now at r.1) }
    ensures function_always { (f : Function) (behind : ℕ) → FunctionAt registers f text.now at behind → GivesFunction result f behind }
    ensures fault { IfErr result (λ e. IsFunctionFault registers e (lines_of (drop at text.now))) }

    // The function can be written again.
    ensures writable { IfOk result (λ r. IsSpelledFunction r.0) }
    ensures takes { IfOk result (λ r. Takes registers r.0.body) }
{
    let mut begun = None;
    let mut behind = at;
    let mut number = 0;
    while behind < text.len() {
        let (line, next) = line_at(text, behind);
        behind = next;
        number += 1;
        match take_line(alloc, registers, &mut begun, line) {
            Ok(false) => {}
            Ok(true) => return Ok((finished(begun), behind)),
            Err(why) => return Err(why.at_line(number)),
        }
    }
    Err(TextFault::At {
        line: number.max(1),
        what: 10,
    })
}

/// The function whose text begins at offset `at` in a program of this version, and the offset after the line of its
/// `end`. Registers may name fields only in version 2.
pub fn read_function(
    alloc: Global,
    text: &[u8],
    at: usize,
    version: u32,
) -> Result<(Function, usize), TextFault>
    requires version { (version ≡ 1) ⊎ (version ≡ 2) }
    requires at { at ≤ length text.now }
    ensures function { IfOk result (λ r. FunctionAt (has_registers version) r.0 text.now at r.1) }
    ensures function_always { (f : Function) (behind : ℕ) → FunctionAt (has_registers version) f text.now at behind → GivesFunction result f behind }
    ensures fault { IfErr result (λ e. IsFunctionFault (has_registers version) e (lines_of (drop at text.now))) }

    // The function can be written again.
    ensures writable { IfOk result (λ r. IsSpelledFunction r.0) }
    ensures takes { IfOk result (λ r. Takes (has_registers version) r.0.body) }
{
    read_with(alloc, text, version == 2, at)
}
