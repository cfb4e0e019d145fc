//! Numbers and other operands, each read from its word.

ghost use Rattle.std.specs.Prelude.{◌≡◌, ◌≤◌, ◌<◌, ◌^◌, false, true, IfNone, IfSome, Some, None, decimal, ◌∷◌, FitsSigned, IfErr, if◌then◌else◌};
ghost use Rattle.std.specs.Str.Parse.{digits_value};
ghost use Rattle.tac_syntax.specs.Names.{is_digit};
ghost use Rattle.text_lines.specs.Digits.{are_digits, is_in_form, is_in_range, is_number_word, is_signed_word, told_unless};
ghost use Rattle.std.specs.Fmt.{signed_decimal};
ghost use Rattle.tac_syntax.specs.Grammar.{IsLoopName, IsNumber, IsSpelledRecord};
ghost use Rattle.text_lines.specs.LineReading.{ReadsPlain, IsTold};
ghost use Rattle.text_lines.specs.OperandWords.{IsSpelledField, column_text, field_text, fixed_record, list_word, loop_name, record_register, record_word, value_register};
ghost use Rattle.text_lines.specs.Slots.{column_fault, field_fault, is_list_word, name_fault, numbered_fault, operand_fault, register_fault};
ghost use mir.Syntax.{w64};

use crate::faults::NotRead;
use crate::line_words::is_word;
use pact_record::Column;
use std::str;
use tac_syntax::{LoopList, Rec};

fn is_digit(byte: u8) -> bool
    ensures { result ≡ is_digit byte }
{
    b'0' <= byte && byte <= b'9'
}

fn are_digits(word: &[u8]) -> bool
    ensures { result ≡ are_digits word.now }
{
    for byte in word {
        if !is_digit(*byte) {
            return false;
        }
    }
    word.len() >= 1
}

// Decimal digits without a leading zero, except for 0 itself.
fn is_number_word(word: &[u8]) -> bool
    ensures { result ≡ is_number_word word.now }
{
    are_digits(word) && (word.len() <= 1 || word[0] != b'0')
}

// None if the number doesn't fit 64 bits.
fn number_of(word: &[u8]) -> Option<u64>
    ensures fits { are_digits word.now ≡ true → digits_value 10 word.now < 2 ^ 64 → result ≡ Some (digits_value 10 word.now) }
    ensures large { are_digits word.now ≡ true → 2 ^ 64 ≤ digits_value 10 word.now → result ≡ None }
{
    match str::from_utf8(word) {
        Ok(text) => text.parse::<u64>().ok(),
        Err(_) => None,
    }
}

// The number that a word spells, if it is from `low` to `high`.
fn number_between(low: u64, high: u64, word: &[u8]) -> Option<u64>
    ensures some { IfSome result (λ n. (word.now ≡ decimal n) × (low ≤ n) × (n ≤ high) × (is_in_range low high word.now ≡ true)) }
    ensures none { IfNone result (is_in_range low high word.now ≡ false) }
{
    if !is_number_word(word) {
        return None;
    }
    match number_of(word) {
        Some(number) if low <= number && number <= high => Some(number),
        _ => None,
    }
}

pub fn is_in_range(low: u64, high: u64, word: &[u8]) -> bool
    ensures { result ≡ is_in_range low high word.now }
{
    number_between(low, high, word).is_some()
}

/// Whether a word is the letter followed by one or more digits.
pub fn is_in_form(letter: u8, word: &[u8]) -> bool
    ensures { result ≡ is_in_form letter word.now }
{
    match word.split_first() {
        Some((first, digits)) => *first == letter && are_digits(digits),
        None => false,
    }
}

/// A number from `low` to `high`.
pub fn number_in(low: u32, high: u32, word: &[u8]) -> Result<u32, NotRead>
    ensures read { ReadsPlain (told_unless (is_in_range low high word.now) 7) (λ n. (low ≤ n) × (n ≤ high)) decimal result word.now }
    ensures told { IfErr result IsTold }
{
    match number_between(u64::from(low), u64::from(high), word) {
        Some(number) => Ok(number as u32),
        None => Err(NotRead::Fault { what: 7 }),
    }
}

/// A number with or without a sign.
pub fn signed_in(word: &[u8]) -> Result<i64, NotRead>
    ensures { ReadsPlain (told_unless (is_signed_word word.now) 7) (FitsSigned w64) signed_decimal result word.now }
{
    if let Some((b'-', digits)) = word.split_first() {
        return match number_between(1, 1 << 63, digits) {
            Some(size) => Ok(-1 - (size - 1) as i64),
            None => Err(NotRead::Fault { what: 7 }),
        };
    }
    match number_between(0, (1 << 63) - 1, word) {
        Some(number) => Ok(number as i64),
        None => Err(NotRead::Fault { what: 7 }),
    }
}

// The number after the letter in a word such as `v3`.
fn numbered(letter: u8, low: u32, high: u32, word: &[u8]) -> Result<u32, NotRead>
    ensures { ReadsPlain (if is_in_form letter word.now then numbered_fault low high word.now else Some 8)
        (λ n. (low ≤ n) × (n ≤ high)) (λ n. letter ∷ decimal n) result word.now }
{
    if !is_in_form(letter, word) {
        return Err(NotRead::Fault { what: 8 });
    }
    number_in(low, high, &word[1..])
}

/// The number of a value register, such as 3 for `v3`.
pub fn value_in(word: &[u8]) -> Result<u32, NotRead>
    ensures { ReadsPlain (register_fault 118 word.now) IsNumber value_register result word.now }
{
    numbered(b'v', 0, 255, word)
}

/// The number of a record register, such as 3 for `r3`.
pub fn record_in(word: &[u8]) -> Result<u32, NotRead>
    ensures { ReadsPlain (register_fault 114 word.now) IsNumber record_register result word.now }
{
    numbered(b'r', 0, 255, word)
}

/// The number in a loop's name. Fault 11 if it isn't `name`, the only one that is allowed at this place.
pub fn name_in(name: u64, word: &[u8]) -> Result<u32, NotRead>
    ensures { ReadsPlain (name_fault name word.now) (λ n. (n ≡ name) × IsLoopName n) loop_name result word.now }
{
    let number = numbered(b'x', 1, 64, word)?;
    if u64::from(number) == name {
        Ok(number)
    } else {
        Err(NotRead::Fault { what: 11 })
    }
}

fn fixed_record(word: &[u8]) -> Option<Rec>
    ensures { result ≡ fixed_record word.now }
{
    if is_word(word, b"in") {
        Some(Rec::Input)
    } else if is_word(word, b"left") {
        Some(Rec::Left)
    } else if is_word(word, b"right") {
        Some(Rec::Right)
    } else if is_word(word, b"join") {
        Some(Rec::Join)
    } else if is_word(word, b"first") {
        Some(Rec::First)
    } else {
        None
    }
}

/// A record that is read: a register, a loop's name, or a record that the function's kind provides, such as `in`.
pub fn operand_in(word: &[u8]) -> Result<Rec, NotRead>
    ensures { ReadsPlain (operand_fault word.now) IsSpelledRecord record_word result word.now }
{
    if let Some(from) = fixed_record(word) {
        return Ok(from);
    }
    if is_in_form(b'r', word) {
        return Ok(Rec::Reg(numbered(b'r', 0, 255, word)?));
    }
    Ok(Rec::Loop(numbered(b'x', 1, 64, word)?))
}

/// How a statement names the field of a record.
#[derive(Clone, Copy, Debug, PartialEq, Eq)]
pub enum FieldWord {
    /// By its number.
    Number(u32),
    /// By the value register that holds its number.
    Register(u32),
}

/// The field of a record: its number, or `@` and a value register if `registers` is true.
pub fn field_in(registers: bool, word: &[u8]) -> Result<FieldWord, NotRead>
    ensures { ReadsPlain (field_fault registers word.now) (IsSpelledField registers) field_text result word.now }
{
    if let Some(register) = word.strip_prefix(b"@") {
        if !registers {
            return Err(NotRead::Fault { what: 7 });
        }
        return Ok(FieldWord::Register(value_in(register)?));
    }
    Ok(FieldWord::Number(number_in(0, 255, word)?))
}

/// A column of a source.
pub fn column_in(word: &[u8]) -> Result<Column, NotRead>
    ensures { ReadsPlain (column_fault word.now) (λ c. IsNumber c.field) column_text result word.now }
{
    if let Some(digits) = word.strip_prefix(b"text:") {
        return Ok(Column {
            field: number_in(0, 255, digits)?,
            text: true,
        });
    }
    match word.strip_prefix(b"int:") {
        Some(digits) => Ok(Column {
            field: number_in(0, 255, digits)?,
            text: false,
        }),
        None => Err(NotRead::Fault { what: 8 }),
    }
}

/// The list of a loop.
pub fn list_in(word: &[u8]) -> Result<LoopList, NotRead>
    ensures { ReadsPlain (told_unless (is_list_word word.now) 8) (λ _. Unit {0}) list_word result word.now }
{
    if is_word(word, b"group") {
        Ok(LoopList::Group)
    } else if is_word(word, b"left") {
        Ok(LoopList::Left)
    } else if is_word(word, b"right") {
        Ok(LoopList::Right)
    } else {
        Err(NotRead::Fault { what: 8 })
    }
}
