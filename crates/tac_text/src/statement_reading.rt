//! Lines of statements, read from their words.

ghost use Rattle.std.specs.Prelude.{◌≡◌, ◌≤◌, ◌<◌, ◌∷◌, ℕ, Bool, None, Some, IfErr, IfOk, OnErr, OnOk, codes, length};
ghost use Rattle.tac_syntax.specs.Code.{Line};
ghost use Rattle.tac_syntax.specs.Grammar.{IsLiteral};
ghost use Rattle.tac_syntax.specs.Limits.{nesting_limit};
ghost use Rattle.text_lines.specs.CanonicalLines.{AreLineWords};
ghost use Rattle.text_lines.specs.Digits.{or_else};
ghost use Rattle.text_lines.specs.declared.line_words.LineWord.TheVariants.{Plain as plain_word};
ghost use Rattle.text_lines.specs.LineReading.{IsFaultOf, TellsFault, TellsNoFault};
ghost use Rattle.text_lines.specs.declared.faults.NotRead.TheVariants.{Fault};
ghost use Rattle.tac_text.specs.StatementAnswers.{said, GivesLine, ReadsAssignment, ReadsForm, ReadsLine};
ghost use Rattle.tac_text.specs.StatementSpelling.{op1_word, op2_word, words_of_line};
ghost use Rattle.tac_text.specs.StatementFaults.{is_target, statement_fault, target_alone};
ghost use Rattle.tac_text.specs.StatementLines.{LinePlace, MayStand};

use crate::lines::{BodyLine, Place};
use crate::operation_words::{op1_named, op2_named};
use pact_record::{NotText, Op1, Op2, OutOfMemory, Text};
use std::alloc::Global;
use tac_syntax::{MAX_NESTING, Stmt};
use text_lines::{
    Cursor, FieldWord, LineWord, NotRead, is_in_form, is_in_range, is_word, record_in, value_in,
};

// ---- assignments, after the form: the word that says what is assigned

fn read_int(target: &[u8], words: &mut Cursor<'_>) -> Result<Stmt, NotRead>
    ensures { (registers : Bool) → ReadsForm registers (codes "int") target.now result words.old }
{
    let to = value_in(target)?;
    let value = words.signed()?;
    words.end()?;
    Ok(Stmt::Int { to, value })
}

fn text_of(alloc: Global, bytes: &[u8]) -> Result<Text, OutOfMemory>
    requires { IsLiteral bytes.now }
    ensures { IfOk result (λ text. text ≡ bytes.now) }
{
    match Text::from_bytes(alloc, bytes) {
        Ok(text) => Ok(text),
        Err(NotText::Memory) => Err(OutOfMemory),
        Err(NotText::Utf8) => unreachable!(),
        Err(NotText::Long) => unreachable!(),
    }
}

fn read_text(alloc: Global, target: &[u8], words: &mut Cursor<'_>) -> Result<Stmt, NotRead>
    requires { AreLineWords words.old }
    ensures { (registers : Bool) → ReadsForm registers (codes "text") target.now result words.old }
{
    let to = value_in(target)?;
    let bytes = words.literal()?;
    words.end()?;
    let value = text_of(alloc, bytes)?;
    Ok(Stmt::Text { to, value })
}

fn read_null(target: &[u8], words: &mut Cursor<'_>) -> Result<Stmt, NotRead>
    ensures { (registers : Bool) → ReadsForm registers (codes "null") target.now result words.old }
{
    let to = value_in(target)?;
    words.end()?;
    Ok(Stmt::Null { to })
}

fn read_mov(target: &[u8], words: &mut Cursor<'_>) -> Result<Stmt, NotRead>
    ensures { (registers : Bool) → ReadsForm registers (codes "mov") target.now result words.old }
{
    let to = value_in(target)?;
    let from = words.value()?;
    words.end()?;
    Ok(Stmt::Mov { to, from })
}

fn read_get(registers: bool, target: &[u8], words: &mut Cursor<'_>) -> Result<Stmt, NotRead>
    ensures { ReadsForm registers (codes "get") target.now result words.old }
{
    let to = value_in(target)?;
    let from = words.operand()?;
    let field = words.field(registers)?;
    words.end()?;
    Ok(match field {
        FieldWord::Number(field) => Stmt::Get { to, from, field },
        FieldWord::Register(at) => Stmt::GetAt { to, from, at },
    })
}

fn read_key(target: &[u8], words: &mut Cursor<'_>) -> Result<Stmt, NotRead>
    ensures { (registers : Bool) → ReadsForm registers (codes "key") target.now result words.old }
{
    let to = value_in(target)?;
    let at = words.number(0, 255)?;
    words.end()?;
    Ok(Stmt::Key { to, at })
}

fn read_new(target: &[u8], words: &mut Cursor<'_>) -> Result<Stmt, NotRead>
    ensures { (registers : Bool) → ReadsForm registers (codes "new") target.now result words.old }
{
    let to = record_in(target)?;
    words.end()?;
    Ok(Stmt::New { to })
}

fn read_copy(target: &[u8], words: &mut Cursor<'_>) -> Result<Stmt, NotRead>
    ensures { (registers : Bool) → ReadsForm registers (codes "copy") target.now result words.old }
{
    let to = record_in(target)?;
    let from = words.operand()?;
    words.end()?;
    Ok(Stmt::Copy { to, from })
}

fn read_one(op: Op1, target: &[u8], words: &mut Cursor<'_>) -> Result<Stmt, NotRead>
    ensures { (registers : Bool) → ReadsForm registers (op1_word op) target.now result words.old }
{
    let to = value_in(target)?;
    let a = words.value()?;
    words.end()?;
    Ok(Stmt::One { to, op, a })
}

fn read_two(op: Op2, target: &[u8], words: &mut Cursor<'_>) -> Result<Stmt, NotRead>
    ensures { (registers : Bool) → ReadsForm registers (op2_word op) target.now result words.old }
{
    let to = value_in(target)?;
    let a = words.value()?;
    let b = words.value()?;
    words.end()?;
    Ok(Stmt::Two { to, op, a, b })
}

// The target's own fault, or `what` if it has none.
fn target_or(target: &[u8], what: u32) -> NotRead
    ensures { IsFaultOf result (or_else (target_alone target.now) (Some what)) }
{
    match target.split_first() {
        Some((_, digits)) if is_in_range(0, 255, digits) => NotRead::Fault { what },
        _ => NotRead::Fault { what: 7 },
    }
}

fn read_form(
    alloc: Global,
    registers: bool,
    form: &[u8],
    target: &[u8],
    words: &mut Cursor<'_>,
) -> Result<Stmt, NotRead>
    requires { AreLineWords words.old }
    ensures { ReadsForm registers form.now target.now result words.old }
{
    if is_word(form, b"int") {
        read_int(target, words)
    } else if is_word(form, b"text") {
        read_text(alloc, target, words)
    } else if is_word(form, b"null") {
        read_null(target, words)
    } else if is_word(form, b"mov") {
        read_mov(target, words)
    } else if is_word(form, b"get") {
        read_get(registers, target, words)
    } else if is_word(form, b"key") {
        read_key(target, words)
    } else if is_word(form, b"new") {
        read_new(target, words)
    } else if is_word(form, b"copy") {
        read_copy(target, words)
    } else if let Some(op) = op1_named(form) {
        read_one(op, target, words)
    } else if let Some(op) = op2_named(form) {
        read_two(op, target, words)
    } else {
        Err(target_or(target, 9))
    }
}

// The words after a target. Only the form says which kind of register the target must be. If `=` or the form is missing
// or wrong, a target whose number is out of range is reported first.
fn read_assignment(
    alloc: Global,
    registers: bool,
    target: &[u8],
    words: &mut Cursor<'_>,
) -> Result<Stmt, NotRead>
    requires { AreLineWords words.old }
    ensures { ReadsAssignment registers target.now result words.old }
{
    let Ok(equals) = words.next() else {
        return Err(target_or(target, 4));
    };
    if !equals.is_plain(b"=") {
        return Err(target_or(target, 8));
    }
    match words.next() {
        Ok(LineWord::Plain(form)) => read_form(alloc, registers, form.bytes(), target, words),
        Ok(LineWord::Literal(_)) => Err(target_or(target, 9)),
        Err(_) => Err(target_or(target, 4)),
    }
}

// ---- other lines, after their first word

fn read_set(place: Place, words: &mut Cursor<'_>) -> Result<BodyLine, NotRead>
    ensures { ReadsLine place result (plain_word (codes "set") ∷ words.old) }
{
    let to = words.record()?;
    let field = words.field(place.registers)?;
    let value = words.value()?;
    words.end()?;
    Ok(BodyLine::Plain(match field {
        FieldWord::Number(field) => Stmt::Set { to, field, value },
        FieldWord::Register(at) => Stmt::SetAt { to, at, value },
    }))
}

fn read_emit(words: &mut Cursor<'_>) -> Result<BodyLine, NotRead>
    ensures { (p : LinePlace) → ReadsLine p result (plain_word (codes "emit") ∷ words.old) }
{
    let from = words.record()?;
    words.end()?;
    Ok(BodyLine::Plain(Stmt::Emit { from }))
}

// A block must be inside fewer than 64 others.
fn room_for_block(place: Place) -> Result<(), NotRead>
    ensures room { OnOk result (place.blocks < nesting_limit) }
    ensures full { OnErr result (nesting_limit ≤ place.blocks) }
    ensures fault { IfErr result (λ e. e ≡ Fault 10) }
{
    if place.blocks < MAX_NESTING {
        Ok(())
    } else {
        Err(NotRead::Fault { what: 10 })
    }
}

fn read_if(place: Place, words: &mut Cursor<'_>) -> Result<BodyLine, NotRead>
    ensures { ReadsLine place result (plain_word (codes "if") ∷ words.old) }
{
    room_for_block(place)?;
    let on = words.value()?;
    words.end()?;
    Ok(BodyLine::If { on })
}

fn read_repeat(place: Place, words: &mut Cursor<'_>) -> Result<BodyLine, NotRead>
    ensures { ReadsLine place result (plain_word (codes "repeat") ∷ words.old) }
{
    room_for_block(place)?;
    let count = words.number(1, 1000)?;
    words.end()?;
    Ok(BodyLine::Repeat { count })
}

fn read_each(place: Place, words: &mut Cursor<'_>) -> Result<BodyLine, NotRead>
    ensures { ReadsLine place result (plain_word (codes "each") ∷ words.old) }
{
    room_for_block(place)?;
    let name = words.loop_name(u64::from(place.lists) + 1)?;
    words.fixed(b"of")?;
    let list = words.list()?;
    words.end()?;
    Ok(BodyLine::Each { name, list })
}

fn read_else(place: Place, words: &mut Cursor<'_>) -> Result<BodyLine, NotRead>
    ensures { ReadsLine place result (plain_word (codes "else") ∷ words.old) }
{
    if !place.may_part {
        return Err(NotRead::Fault { what: 10 });
    }
    words.end()?;
    Ok(BodyLine::Else)
}

fn read_end(words: &mut Cursor<'_>) -> Result<BodyLine, NotRead>
    ensures { (p : LinePlace) → ReadsLine p result (plain_word (codes "end") ∷ words.old) }
{
    words.end()?;
    Ok(BodyLine::End)
}

// ---- lines

fn is_target(word: &[u8]) -> bool
    ensures { result ≡ is_target word.now }
{
    is_in_form(b'v', word) || is_in_form(b'r', word)
}

// Reads a line by its first word; `words` are the words after it.
fn read_behind(
    alloc: Global,
    place: Place,
    first: &[u8],
    words: &mut Cursor<'_>,
) -> Result<BodyLine, NotRead>
    requires { AreLineWords words.old }
    ensures { ReadsLine place result (plain_word first.now ∷ words.old) }
{
    if is_word(first, b"set") {
        read_set(place, words)
    } else if is_word(first, b"emit") {
        read_emit(words)
    } else if is_word(first, b"if") {
        read_if(place, words)
    } else if is_word(first, b"repeat") {
        read_repeat(place, words)
    } else if is_word(first, b"each") {
        read_each(place, words)
    } else if is_word(first, b"else") {
        read_else(place, words)
    } else if is_word(first, b"end") {
        read_end(words)
    } else if is_target(first) {
        Ok(BodyLine::Plain(read_assignment(alloc, place.registers, first, words)?))
    } else {
        Err(NotRead::Fault { what: 3 })
    }
}

fn read_line(alloc: Global, place: Place, words: &[LineWord]) -> Result<BodyLine, NotRead>
    requires some { 0 < length words.now }
    requires words { AreLineWords words.now }
    ensures { ReadsLine place result words.now }
{
    let mut words = Cursor::new(words);
    match words.next()? {
        LineWord::Plain(first) => read_behind(alloc, place, first.bytes(), &mut words),
        LineWord::Literal(_) => Err(NotRead::Fault { what: 3 }),
    }
}

/// The line that the words make at a place, or their first fault.
pub fn read_statement(alloc: Global, place: Place, words: &[LineWord]) -> Result<BodyLine, NotRead>
    requires some { 0 < length words.now }
    requires words { AreLineWords words.now }
    ensures line { IfOk result (λ b. (l : Line) × (said b ≡ Some l) × (words.now ≡ words_of_line l) × MayStand place l) }
    ensures fault { IfErr result (λ e. IsFaultOf e (statement_fault place words.now)) }
    ensures line_always { (l : Line) → MayStand place l → words.now ≡ words_of_line l → GivesLine result l }
    ensures faultless_always { statement_fault place words.now ≡ None → TellsNoFault result }
    ensures fault_always { (what : ℕ) → statement_fault place words.now ≡ Some what → TellsFault result what }
{
    read_line(alloc, place, words)
}
