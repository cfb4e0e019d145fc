//! The canonical spelling of bodies and of functions.

ghost use Rattle.std.specs.Prelude.{◌≡◌, ◌≤◌, ◌+◌, ◌++◌, OnOk, ℕ, IfOk, List, false, true, length, map};
ghost use Rattle.tac_syntax.specs.Code.{nesting};
ghost use Rattle.tac_syntax.specs.Trees.{only};
ghost use Rattle.tac_text.specs.FunctionSpelling.{body_text, deepest, function_spelling};
ghost use Rattle.tac_syntax.specs.FieldRegisters.{Takes};
ghost use Rattle.tac_syntax.specs.Functions.{IsSpelledFunction};
ghost use Rattle.tac_text.specs.FunctionLines.{FunctionAt, header_words};
ghost use Rattle.text_lines.specs.CanonicalLines.{word_text};

use crate::kind_words::kind_name;
use crate::statement_writing::{first_words, put_line, put_word};
use crate::words::Words;
use pact_record::{Bytes, OutOfMemory};
use std::alloc::Global;
use tac_syntax::{Body, Function, Kind, Stmt};

#[cycle(write)]
fn write_stmt(alloc: Global, out: &mut Bytes, depth: u32, stmt: &Stmt) -> Result<(), OutOfMemory>
    requires { depth + nesting (only stmt.now) ≤ deepest }
    ensures { OnOk result (out.new ≡ out.old ++ body_text depth (only stmt.now)) }
{
    put_line(out, depth, &first_words(alloc, stmt)?)?;
    match stmt {
        Stmt::If { body, other, .. } => {
            write_lines(alloc, out, depth + 1, body)?;
            if other.len() > 0 {
                put_word(alloc, out, depth, b"else")?;
                write_lines(alloc, out, depth + 1, other)?;
            }
            put_word(alloc, out, depth, b"end")
        }
        Stmt::Repeat { body, .. } => {
            write_lines(alloc, out, depth + 1, body)?;
            put_word(alloc, out, depth, b"end")
        }
        Stmt::Each { body, .. } => {
            write_lines(alloc, out, depth + 1, body)?;
            put_word(alloc, out, depth, b"end")
        }
        _ => Ok(()),
    }
}

#[cycle(write)]
pub fn write_lines(
    alloc: Global,
    out: &mut Bytes,
    depth: u32,
    body: &Body,
) -> Result<(), OutOfMemory>
    requires { depth + nesting body.now ≤ deepest }
    ensures { OnOk result (out.new ≡ out.old ++ body_text depth body.now) }
{
    for stmt in body.stmts() {
        write_stmt(alloc, out, depth, stmt)?;
    }
    Ok(())
}

fn header_words(alloc: Global, function: &Function) -> Result<Words, OutOfMemory>
    ensures { IfOk result (λ words. words ≡ map word_text (header_words function.now.name function.now.kind function.now.keys)) }
{
    let words = Words::new(alloc)
        .and_word(alloc, b"function")?
        .and_word(alloc, function.name.bytes())?
        .and_word(alloc, kind_name(function.kind))?;
    match function.kind {
        Kind::Reduce | Kind::CoGroup => words.and_number(alloc, b"", function.keys),
        Kind::Map | Kind::Match | Kind::Cross => Ok(words),
    }
}

/// The text of a function.
pub fn write_function(alloc: Global, function: &Function) -> Result<Bytes, OutOfMemory>
    requires { IsSpelledFunction function.now }
    ensures spelled { IfOk result (λ text. text ≡ function_spelling function.now) }
    // In version 2 the text is read back as the function, with any text after it.
    ensures read_again { IfOk result (λ text. (rest : List ℕ) → FunctionAt true function.now (text ++ rest) 0 (length text)) }
    // In version 1 it is too, if no register names a field.
    ensures read_in_first { IfOk result (λ text. Takes false function.now.body → (rest : List ℕ) → FunctionAt false function.now (text ++ rest) 0 (length text)) }
{
    // `depth` makes it known that the nesting is at most 64, so no depth overflows.
    let _nesting = function.body.depth();
    let mut out = Bytes::new(alloc);
    put_line(&mut out, 0, &header_words(alloc, function)?)?;
    write_lines(alloc, &mut out, 1, &function.body)?;
    put_word(alloc, &mut out, 0, b"end")?;
    Ok(out)
}
