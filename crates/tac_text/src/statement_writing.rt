//! Lines in their canonical spelling, and the words of the first lines of statements.

ghost use Rattle.std.specs.Prelude.{◌≡◌, ◌*◌, ◌++◌, ◌∷◌, [], OnOk, replicate, flat_map, IfOk, codes};
ghost use Rattle.text_lines.specs.CanonicalLines.{line_text, escaped, literal};
ghost use Rattle.std.specs.Fmt.{decimal};
ghost use Rattle.tac_syntax.specs.Trees.{first_line};
ghost use Rattle.text_lines.specs.OperandWords.{list_word};
ghost use Rattle.tac_text.specs.StatementSpelling.{line_words};

use crate::operation_words::{op1_name, op2_name};
use crate::words::Words;
use pact_record::{Bytes, OutOfMemory};
use std::alloc::Global;
use tac_syntax::{LoopList, Stmt};

fn put_indent(out: &mut Bytes, depth: u32) -> Result<(), OutOfMemory>
    ensures { OnOk result (out.new ≡ out.old ++ replicate (2 * depth) 32) }
{
    for _ in 0..depth {
        out.extend_from_slice(b"  ")?;
    }
    Ok(())
}

fn put_words(out: &mut Bytes, words: &[Bytes]) -> Result<(), OutOfMemory>
    ensures { OnOk result (out.new ≡ out.old ++ flat_map (λ w. 32 ∷ w) words.now) }
{
    for word in words {
        out.extend_from_slice(b" ")?;
        out.extend_from_slice(word.bytes())?;
    }
    Ok(())
}

/// Appends a line to a text: two spaces for each open block, the words with one space between, and a line feed.
pub fn put_line(out: &mut Bytes, depth: u32, words: &Words) -> Result<(), OutOfMemory>
    ensures { OnOk result (out.new ≡ out.old ++ line_text depth words.now) }
{
    put_indent(out, depth)?;
    if let [first, others @ ..] = words.words() {
        out.extend_from_slice(first.bytes())?;
        put_words(out, others)?;
    }
    out.extend_from_slice(b"\n")
}

/// Appends a line of one word.
pub fn put_word(alloc: Global, out: &mut Bytes, depth: u32, word: &[u8]) -> Result<(), OutOfMemory>
    ensures { OnOk result (out.new ≡ out.old ++ line_text depth (word.now ∷ [])) }
{
    put_line(out, depth, &Words::new(alloc).and_word(alloc, word)?)
}

fn list_name(list: LoopList) -> &'static [u8]
    ensures { result.now ≡ list_word list }
{
    match list {
        LoopList::Group => b"group",
        LoopList::Left => b"left",
        LoopList::Right => b"right",
    }
}

fn put_escaped(out: &mut Bytes, byte: u8) -> Result<(), OutOfMemory>
    ensures { OnOk result (out.new ≡ out.old ++ escaped byte) }
{
    match byte {
        b'\\' => out.extend_from_slice(b"\\\\"),
        b'"' => out.extend_from_slice(b"\\\""),
        b'\n' => out.extend_from_slice(b"\\n"),
        b'\r' => out.extend_from_slice(b"\\r"),
        b'\t' => out.extend_from_slice(b"\\t"),
        _ => out.extend_from_slice(&[byte]),
    }
}

// A text between quotation marks, with escapes.
fn literal_of(alloc: Global, text: &[u8]) -> Result<Bytes, OutOfMemory>
    ensures { IfOk result (λ word. word ≡ literal text.now) }
{
    let mut word = Bytes::new(alloc);
    word.extend_from_slice(b"\"")?;
    for byte in text {
        put_escaped(&mut word, *byte)?;
    }
    word.extend_from_slice(b"\"")?;
    Ok(word)
}

// The register that a value goes to, and `=`.
fn assignment(alloc: Global, front: &[u8], to: u32, form: &[u8]) -> Result<Words, OutOfMemory>
    ensures { IfOk result (λ words. words ≡ (front.now ++ decimal to) ∷ codes "=" ∷ form.now ∷ []) }
{
    Words::new(alloc)
        .and_number(alloc, front, to)?
        .and_word(alloc, b"=")?
        .and_word(alloc, form)
}

// A line's first word.
fn begun(alloc: Global, word: &[u8]) -> Result<Words, OutOfMemory>
    ensures { IfOk result (λ words. words ≡ word.now ∷ []) }
{
    Words::new(alloc).and_word(alloc, word)
}

/// The words of a statement's first line.
pub fn first_words(alloc: Global, stmt: &Stmt) -> Result<Words, OutOfMemory>
    ensures { IfOk result (λ words. words ≡ line_words (first_line stmt.now)) }
{
    match stmt {
        Stmt::Int { to, value } => assignment(alloc, b"v", *to, b"int")?.and_signed(alloc, *value),
        Stmt::Text { to, value } => {
            assignment(alloc, b"v", *to, b"text")?.and(literal_of(alloc, value.bytes())?)
        }
        Stmt::Null { to } => assignment(alloc, b"v", *to, b"null"),
        Stmt::Mov { to, from } => {
            assignment(alloc, b"v", *to, b"mov")?.and_number(alloc, b"v", *from)
        }
        Stmt::Get { to, from, field } => assignment(alloc, b"v", *to, b"get")?
            .and_record(alloc, *from)?
            .and_number(alloc, b"", *field),
        Stmt::GetAt { to, from, at } => assignment(alloc, b"v", *to, b"get")?
            .and_record(alloc, *from)?
            .and_number(alloc, b"@v", *at),
        Stmt::Key { to, at } => assignment(alloc, b"v", *to, b"key")?.and_number(alloc, b"", *at),
        Stmt::One { to, op, a } => {
            assignment(alloc, b"v", *to, op1_name(*op))?.and_number(alloc, b"v", *a)
        }
        Stmt::Two { to, op, a, b } => assignment(alloc, b"v", *to, op2_name(*op))?
            .and_number(alloc, b"v", *a)?
            .and_number(alloc, b"v", *b),
        Stmt::New { to } => assignment(alloc, b"r", *to, b"new"),
        Stmt::Copy { to, from } => assignment(alloc, b"r", *to, b"copy")?.and_record(alloc, *from),
        Stmt::Set { to, field, value } => begun(alloc, b"set")?
            .and_number(alloc, b"r", *to)?
            .and_number(alloc, b"", *field)?
            .and_number(alloc, b"v", *value),
        Stmt::SetAt { to, at, value } => begun(alloc, b"set")?
            .and_number(alloc, b"r", *to)?
            .and_number(alloc, b"@v", *at)?
            .and_number(alloc, b"v", *value),
        Stmt::Emit { from } => begun(alloc, b"emit")?.and_number(alloc, b"r", *from),
        Stmt::If { on, .. } => begun(alloc, b"if")?.and_number(alloc, b"v", *on),
        Stmt::Repeat { count, .. } => begun(alloc, b"repeat")?.and_number(alloc, b"", *count),
        Stmt::Each { name, list, .. } => begun(alloc, b"each")?
            .and_number(alloc, b"x", *name)?
            .and_word(alloc, b"of")?
            .and_word(alloc, list_name(*list)),
    }
}
