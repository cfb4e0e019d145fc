//! Hash codes of key values.

ghost use Rattle.std.specs.Prelude.{◌≡◌, fold, length};
ghost use Rattle.pact_record.specs.Record.{key_of};
ghost use Rattle.pact_record.specs.Widths.{AreBelow};
ghost use Rattle.group_table.specs.Codes.{code, mixed, with_value};

use pact_record::{Keys, Record, Value};

// The kinds of values, as numbers that aren't bytes. So a text can't be taken for a value of another kind, nor two
// texts in a row for two other texts.
const NULL: u64 = 256;

const NUMBER: u64 = 257;

const TEXT: u64 = 258;

// A code with one more number. The factor is 2^64 divided by the golden ratio. It is odd, so different codes stay
// different.
fn mixed(hash: u64, number: u64) -> u64
    ensures { result ≡ mixed hash number }
{
    hash.wrapping_mul(11400714819323198485).wrapping_add(number)
}

// A code with the bytes of a text.
fn with_text(start: u64, bytes: &[u8]) -> u64
    ensures { result ≡ fold mixed start bytes.now }
{
    let mut hash = start;
    for byte in bytes {
        hash = mixed(hash, *byte as u64);
    }
    hash
}

// A code with one more value.
fn with_value(hash: u64, value: &Value) -> u64
    ensures { result ≡ with_value hash value.now }
{
    match value {
        Value::Null => mixed(hash, NULL),
        Value::Int(number) => mixed(mixed(hash, NUMBER), number.cast_unsigned()),
        Value::Text(text) => with_text(mixed(hash, TEXT), text.bytes()),
    }
}

/// The hash code of the values of the key fields, in the order of the key. It allocates no memory.
#[tactic(auto, unfolding(crate::specs::Codes::code))]
pub(crate) fn row_code(row: &Record, keys: &Keys) -> u64
    requires { AreBelow (length row.now) keys.now }
    ensures { result ≡ code (key_of keys.now row.now) }
{
    let mut hash: u64 = 0;
    for n in 0..keys.len() {
        hash = with_value(hash, row.get(keys.at(n)));
    }
    hash
}
