//! Shapes of texts, by their bytes.

ghost use Rattle.std.specs.Prelude.{◌≤◌, length};

/// Whether the text is nothing but digits, and has one at least.
pub(crate) fn is_digits(text: &[u8]) -> bool {
    !text.is_empty() && digits_at_start(text) == text.len()
}

/// How many digits the text begins with.
pub(crate) fn digits_at_start(text: &[u8]) -> usize
    ensures { result ≤ length text.now }
{
    for at in 0..text.len() {
        if !text[at].is_ascii_digit() {
            return at;
        }
    }
    text.len()
}

/// The text without a sign at its start.
pub(crate) fn without_sign(text: &[u8]) -> &[u8]
    ensures { length result.now ≤ length text.now }
{
    match text.split_first() {
        Some((b'+' | b'-', rest)) => rest,
        _ => text,
    }
}

pub(crate) fn is_blank(byte: u8) -> bool {
    matches!(byte, b' ' | b'\t' | b'\r' | b'\n')
}

pub(crate) fn is_blank_text(text: &[u8]) -> bool {
    for byte in text {
        if !is_blank(*byte) {
            return false;
        }
    }
    true
}

pub(crate) fn has_blank_around(text: &[u8]) -> bool {
    match (text.first(), text.last()) {
        (Some(first), Some(last)) => is_blank(*first) || is_blank(*last),
        _ => false,
    }
}

pub(crate) fn has_digit(text: &[u8]) -> bool {
    for byte in text {
        if byte.is_ascii_digit() {
            return true;
        }
    }
    false
}

/// Digits with one point among them.
pub(crate) fn is_decimal(text: &[u8]) -> bool {
    let whole = digits_at_start(text);
    let rest = &text[whole..];
    match rest.split_first() {
        Some((b'.', part)) => has_digit(text) && digits_at_start(part) == part.len(),
        _ => false,
    }
}

/// Digits, with or without a point, then `e` and a whole number.
pub(crate) fn is_scientific(text: &[u8]) -> bool {
    for at in 0..text.len() {
        if matches!(text[at], b'e' | b'E') {
            let front = &text[..at];
            return (is_digits(front) || is_decimal(front))
                && is_digits(without_sign(&text[at + 1..]));
        }
    }
    false
}

/// `0x` and hexadecimal digits.
pub(crate) fn is_hexadecimal(text: &[u8]) -> bool {
    match text {
        [b'0', b'x' | b'X', rest @ ..] => !rest.is_empty() && are_hexadecimal(rest),
        _ => false,
    }
}

fn are_hexadecimal(text: &[u8]) -> bool {
    for byte in text {
        if !byte.is_ascii_hexdigit() {
            return false;
        }
    }
    true
}

/// One to three digits, and then groups of a separator and three digits. A decimal part may follow after another sign.
pub(crate) fn has_thousands(text: &[u8]) -> bool {
    let front = digits_at_start(text);
    if front == 0 || front > 3 {
        return false;
    }
    let rest = &text[front..];
    match rest.first() {
        Some(separator) => { is_separator(*separator) && has_groups(rest, *separator) }
        None => false,
    }
}

fn is_separator(byte: u8) -> bool {
    matches!(byte, b',' | b'\'' | b'_' | b' ' | b'.')
}

// Groups of the separator and three digits; after at least one of them a decimal part may follow. Groups by points
// count only if there are two or more, since one may be a decimal part.
fn has_groups(text: &[u8], separator: u8) -> bool {
    let mut rest = text;
    for groups in 0..text.len() {
        match rest {
            [first, a, b, c, after @ ..] if *first == separator => {
                if !(a.is_ascii_digit() && b.is_ascii_digit() && c.is_ascii_digit()) {
                    return false;
                }
                rest = after;
            }
            _ => return has_enough(groups, separator) && ends_number(rest),
        }
    }
    false
}

fn has_enough(groups: usize, separator: u8) -> bool {
    groups > 1 || (groups == 1 && separator != b'.')
}

// Nothing, or a decimal part.
fn ends_number(text: &[u8]) -> bool {
    match text.split_first() {
        None => true,
        Some((b'.' | b',', part)) => digits_at_start(part) == part.len(),
        _ => false,
    }
}

/// Three numbers with `-`, `/` or `.` between them, one of which may be a year. More may follow after another byte.
pub(crate) fn is_date(text: &[u8]) -> bool {
    let first = digits_at_start(text);
    let rest = &text[first..];
    let Some((mark, after)) = rest.split_first() else {
        return false;
    };
    let second = digits_at_start(after);
    let tail = &after[second..];
    let Some((again, last)) = tail.split_first() else {
        return false;
    };
    let third = digits_at_start(last);
    matches!(*mark, b'-' | b'/' | b'.') && *again == *mark && are_date_lengths(first, second, third)
}

fn are_date_lengths(first: usize, second: usize, third: usize) -> bool {
    let year_first = first == 4 && is_short(third);
    let year_last = is_short(first) && (third == 2 || third == 4);
    is_short(second) && (year_first || year_last)
}

fn is_short(digits: usize) -> bool {
    digits == 1 || digits == 2
}

/// A word that is written where a value isn't known.
pub(crate) fn is_unknown_word(text: &[u8]) -> bool {
    matches!(text, [b'-'] | [b'?'] | [b'\\', b'N'])
        || text.eq_ignore_ascii_case(b"null")
        || text.eq_ignore_ascii_case(b"nil")
        || text.eq_ignore_ascii_case(b"n/a")
        || text.eq_ignore_ascii_case(b"#n/a")
        || text.eq_ignore_ascii_case(b"n.a.")
        || text.eq_ignore_ascii_case(b"na")
        || text.eq_ignore_ascii_case(b"nan")
        || text.eq_ignore_ascii_case(b"none")
        || text.eq_ignore_ascii_case(b"unknown")
}

pub(crate) fn is_truth_word(text: &[u8]) -> bool {
    text.eq_ignore_ascii_case(b"true")
        || text.eq_ignore_ascii_case(b"false")
        || text.eq_ignore_ascii_case(b"yes")
        || text.eq_ignore_ascii_case(b"no")
}

/// Whether the text may be a word or a few: a letter or `_` first, and no sign that numbers or sentences have.
pub(crate) fn is_word(text: &[u8]) -> bool {
    match text.first() {
        Some(first) => (begins_letter(*first) || *first == b'_') && are_word_bytes(text),
        None => false,
    }
}

/// Whether the text may be the name of a column, which may also have a unit, as `price ($)` or `Total [net]`.
pub(crate) fn is_column_name(text: &[u8]) -> bool {
    match text.first() {
        Some(first) => (begins_letter(*first) || *first == b'_') && are_name_bytes(text),
        None => false,
    }
}

fn are_name_bytes(text: &[u8]) -> bool {
    for byte in text {
        if !(is_word_byte(*byte) || matches!(*byte, b'$' | b'[' | b']')) {
            return false;
        }
    }
    true
}

// Letters beyond ASCII begin with these bytes in UTF-8, and signs of currencies with 0xC2 or 0xE2.
fn begins_letter(byte: u8) -> bool {
    byte.is_ascii_alphabetic() || matches!(byte, 0xC3..=0xDF | 0xE0 | 0xE1 | 0xE3..=0xED)
}

fn are_word_bytes(text: &[u8]) -> bool {
    for byte in text {
        if !is_word_byte(*byte) {
            return false;
        }
    }
    true
}

fn is_word_byte(byte: u8) -> bool {
    byte.is_ascii_alphanumeric()
        || matches!(
            byte,
            b'_' | b' ' | b'-' | b'#' | b'(' | b')' | b'.' | b'/' | b'%'
        )
        || byte >= 0x80
}

/// A number and a sign beside it, as `$5`, `5%` or `5 kg`: at most one byte that is no digit before, and at most four
/// after.
pub(crate) fn has_unit(text: &[u8]) -> bool {
    let front = first_digit(text);
    let rest = &text[front..];
    let tail = &rest[number_bytes(rest)..];
    has_digit(text) && front <= 4 && tail.len() <= 5 && !has_digit(tail)
}

fn first_digit(text: &[u8]) -> usize
    ensures { result ≤ length text.now }
{
    for at in 0..text.len() {
        if text[at].is_ascii_digit() {
            return at;
        }
    }
    text.len()
}

// How many digits, points and commas the text begins with.
fn number_bytes(text: &[u8]) -> usize
    ensures { result ≤ length text.now }
{
    for at in 0..text.len() {
        if !(text[at].is_ascii_digit() || matches!(text[at], b'.' | b',')) {
            return at;
        }
    }
    text.len()
}
