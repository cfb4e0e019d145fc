//! Why a word of a statement breaks a rule of functions.

use explain_words::Page;
use explain_words::pages::Piece::{Quote, Say};
use explain_words::pages::text_of;
use pact_record::OutOfMemory;

// Whether the digits are a number above the limit.
fn is_above(digits: &str, limit: u64) -> bool {
    match digits.parse::<u64>() {
        Ok(number) => limit < number,
        Err(_) => false,
    }
}

/// Whether the word is a register with too high a number.
pub fn is_too_high(word: &[u8]) -> bool {
    let name = match word.strip_prefix(b"@") {
        Some(name) => text_of(name),
        None => text_of(word),
    };
    match (name.strip_prefix("v"), name.strip_prefix("r")) {
        (Some(digits), _) => is_above(digits, 31),
        (None, Some(digits)) => is_above(digits, 7),
        (None, None) => false,
    }
}

fn kind_has(kind: &str) -> &'static str {
    match kind {
        "map" => "the record in and no list",
        "match" | "cross" => "the records left, right and join, and no list",
        "reduce" => "the record first and the list group",
        "cogroup" => "the lists left and right, and no record except those of its loops",
        _ => "none",
    }
}

/// Appends which registers there are.
pub fn put_registers(page: &mut Page, word: &[u8]) -> Result<(), OutOfMemory> {
    let is_record = text_of(word).contains("r");
    page.line(&[
        Quote(word),
        Say(if is_record {
            ": record registers are r0 to r7"
        } else {
            ": value registers are v0 to v31"
        }),
    ])
}

/// Appends what functions of a kind have.
pub fn put_kind<'x>(page: &mut Page, word: &'x [u8], kind: &'x str) -> Result<(), OutOfMemory> {
    if word == b"key".as_slice() {
        return page.line(&[
            Say("key: a function of kind "),
            Quote(kind.as_bytes()),
            Say(" has no key; only reduce and cogroup have one"),
        ]);
    }
    if text_of(word).starts_with("x") {
        return page.line(&[
            Quote(word),
            Say(": this line isn't inside an each of that name"),
        ]);
    }
    page.line(&[
        Quote(word),
        Say(": a function of kind "),
        Quote(kind.as_bytes()),
        Say(" has "),
        Say(kind_has(kind)),
    ])
}

/// Appends which positions a key has.
pub fn put_keys<'x>(page: &mut Page, word: &'x [u8], keys: &'x [u8]) -> Result<(), OutOfMemory> {
    page.line(&[
        Say("position "),
        Quote(word),
        Say(": the function is written for "),
        Quote(keys),
        Say(if keys == b"1".as_slice() {
            " key"
        } else {
            " keys"
        }),
        Say("; positions count from 0"),
    ])
}

/// The number that the word spells, or 0.
pub fn number_in(word: &[u8]) -> u64 {
    text_of(word).parse::<u64>().unwrap_or(0)
}
