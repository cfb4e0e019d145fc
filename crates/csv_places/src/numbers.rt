//! Why a value isn't a number.

ghost use Rattle.std.specs.Prelude.{◌≡◌, ◌≢◌, [], ℕ, false, IfSome, IfNone, IfOk, IfErr};
ghost use Rattle.pact_record.specs.declared.values.Value.{Value};
ghost use Rattle.csv_source.specs.CsvRows.{FieldFault, FieldValue, IsNumber};

use crate::shapes::{
    has_blank_around, has_thousands, has_unit, is_blank_text, is_date, is_decimal, is_digits,
    is_hexadecimal, is_scientific, is_truth_word, is_unknown_word, is_word, without_sign,
};
use std::str;

/// Why a value isn't a whole number of 64 bits, as words can say it.
#[derive(Clone, Copy, Debug, PartialEq, Eq)]
pub enum NumberFault {
    /// It has nothing but blanks.
    Blank,
    /// A blank before or after it.
    BlankAround,
    /// Digits only, but too many.
    TooLarge,
    /// A decimal part.
    Decimals,
    /// Thousands separators.
    Thousands,
    /// An exponent, as in `1e6`.
    Exponent,
    /// Hexadecimal digits after `0x`.
    Hexadecimal,
    Date,
    /// A word for a value that isn't known, as `NULL` or `n/a`.
    Unknown,
    /// `true`, `false`, `yes` or `no`.
    Truth,
    /// A byte-order mark, the second one of the file.
    ByteOrderMark,
    /// A number with a sign of a currency or a unit.
    Unit,
    /// A word.
    Word,
    Other,
}

/// Why a value isn't a number, or None if it is empty, which is Null, or a number. The value is without its quotes.
pub fn number_fault(value: &[u8]) -> Option<NumberFault>
    ensures none { IfNone result ((v : Value) × FieldValue false value.now v) }
    ensures some { IfSome result (λ _. (why : ℕ) × FieldFault false value.now why) }
{
    if value.is_empty() {
        return None;
    }
    match number_in(value) {
        Ok(_) => None,
        Err(_) => Some(fault_of(value)),
    }
}

/// Whether the value is a number.
pub(crate) fn is_number(value: &[u8]) -> bool {
    !value.is_empty() && number_in(value).is_ok()
}

// The number that a value is, or the fault that csv_source reports.
fn number_in(value: &[u8]) -> Result<i64, u32>
    requires { value.now ≢ [] }
    ensures number { IfOk result (IsNumber value.now) }
    ensures fault { IfErr result (FieldFault false value.now) }
{
    match str::from_utf8(value) {
        Ok(text) => match text.parse::<i64>() {
            Ok(number) => Ok(number),
            Err(_) => Err(2),
        },
        Err(_) => Err(3),
    }
}

fn fault_of(value: &[u8]) -> NumberFault {
    if is_blank_text(value) {
        return NumberFault::Blank;
    }
    if has_blank_around(value) {
        return NumberFault::BlankAround;
    }
    if value.starts_with(b"\xEF\xBB\xBF") {
        return NumberFault::ByteOrderMark;
    }
    let digits = without_sign(value);
    match digit_fault(digits) {
        Some(fault) => fault,
        None => word_fault(value),
    }
}

// The fault of a text that begins like a number.
fn digit_fault(digits: &[u8]) -> Option<NumberFault> {
    if is_digits(digits) {
        return Some(NumberFault::TooLarge);
    }
    if has_thousands(digits) {
        return Some(NumberFault::Thousands);
    }
    if is_decimal(digits) {
        return Some(NumberFault::Decimals);
    }
    if is_scientific(digits) {
        return Some(NumberFault::Exponent);
    }
    if is_hexadecimal(digits) {
        return Some(NumberFault::Hexadecimal);
    }
    if is_date(digits) {
        return Some(NumberFault::Date);
    }
    None
}

fn word_fault(value: &[u8]) -> NumberFault {
    if is_unknown_word(value) {
        NumberFault::Unknown
    } else if is_truth_word(value) {
        NumberFault::Truth
    } else if is_word(value) {
        NumberFault::Word
    } else if has_unit(value) {
        NumberFault::Unit
    } else {
        NumberFault::Other
    }
}
