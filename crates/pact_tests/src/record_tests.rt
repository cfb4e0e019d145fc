//! The worker to which key values send a record, and records that agree on some fields.

ghost use Rattle.std.specs.Prelude.{◌≡◌, ◌<◌, ◌∷◌, [], length, IfOk};

use pact_record::{Fields, Keys, OutOfMemory, Record, Text, Value};
use std::alloc::Global;
use std::process::Abort;
use std::test::Fail;

fn pair(alloc: Global, first: Value, second: Value) -> Result<Record, OutOfMemory>
    ensures { IfOk result (λ row. length row ≡ 2) }
{
    let mut row = Record::empty(alloc, 2)?;
    row.set(0, first);
    row.set(1, second);
    Ok(row)
}

fn one_key(field: u32) -> Keys
    requires { field < 2 }
    ensures { result ≡ field ∷ [] }
{
    let mut keys = Keys::new();
    keys.push(field);
    keys
}

fn two_keys(first: u32, second: u32) -> Keys
    requires first { first < 2 }
    requires second { second < 2 }
    ensures { result ≡ first ∷ second ∷ [] }
{
    let mut keys = Keys::new();
    keys.push(first);
    keys.push(second);
    keys
}

// The worker, of four, that a record with these two values goes to: by both fields, by the first, and by the second.
fn targets(rt: &(impl Abort + AllocGlobal), first: Value, second: Value) -> Result<[u32; 3], Fail> {
    let row = pair(rt.alloc(), first, second)?;
    Ok([
        row.target(&two_keys(0, 1), 4),
        row.target(&one_key(0), 4),
        row.target(&one_key(1), 4),
    ])
}

#[test]
fn key_values_tell_the_worker(rt: HostRuntime) -> Result<(), Fail> {
    let text = Text::from_bytes(rt.alloc(), b"ab")?;
    assert!(rt; targets(&rt, Value::Int(1), Value::Int(2))? == [1, 1, 2]);
    assert!(rt; targets(&rt, Value::Null, Value::Int(-1))? == [0, 3, 3]);
    assert!(rt; targets(&rt, Value::Text(text), Value::Int(0))? == [2, 2, 0]);
    let row = pair(rt.alloc(), Value::Int(i64::MIN), Value::Int(i64::MAX))?;
    assert!(rt; row.target(&one_key(0), 16) == 0 && row.target(&one_key(1), 16) == 15);
    assert!(rt; row.target(&two_keys(0, 1), 1) == 0 && row.target(&Keys::new(), 16) == 0);
    Ok(())
}

#[test]
fn records_agree_on_fields(rt: HostRuntime) -> Result<(), Fail> {
    let left = pair(rt.alloc(), Value::Int(7), Value::Null)?;
    let right = pair(rt.alloc(), Value::Int(7), Value::Int(0))?;
    let (first, second) = (Fields::empty().with(0), Fields::empty().with(1));
    assert!(rt; left.agree(&right, first) && left.agree(&right, Fields::empty()));
    assert!(rt; !left.agree(&right, second) && !right.agree(&left, first.with(1)));
    assert!(rt; left.agree(&left, Fields::all(2)));
    Ok(())
}
