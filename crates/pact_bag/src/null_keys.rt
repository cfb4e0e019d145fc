//! Whether a key has a Null.

ghost use Rattle.std.specs.Prelude.{◌≡◌, ◌∷◌, [], length};
ghost use Rattle.pact_bag.specs.Pairs.{has_null};
ghost use Rattle.pact_record.specs.Record.{key_of};
ghost use Rattle.pact_record.specs.Widths.{AreBelow};

use pact_record::{Keys, Record, Value};

fn is_null(value: &Value) -> bool
    ensures { result ≡ has_null (value.now ∷ []) }
{
    match value {
        Value::Null => true,
        Value::Int(_) => false,
        Value::Text(_) => false,
    }
}

/// Whether one of the record's key values is Null.
pub fn has_null(row: &Record, keys: &Keys) -> bool
    requires { AreBelow (length row.now) keys.now }
    ensures { result ≡ has_null (key_of keys.now row.now) }
{
    for n in 0..keys.len() {
        if is_null(row.get(keys.at(n))) {
            return true;
        }
    }
    false
}
