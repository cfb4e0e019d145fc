ghost use Rattle.std.specs.Prelude.{◌≡◌, ◌≤◌, length, IfOk};
ghost use Rattle.pact_record.specs.declared.records.TheConstants.{MAX_FIELDS};

use pact_bag::Rows;
use pact_record::{OutOfMemory, Record, Value};
use std::alloc::Global;
use std::test::Fail;
use tac_interp::{Scratch, call_pair, map_into};
use tac_syntax::{Kind, Valid};
use tac_text::read_function;
use tac_validate::validate;

// A number, or Null.
fn number(number: Option<i64>) -> Value {
    number.map_or(Value::Null, Value::Int)
}

fn is_number(value: &Value, wanted: Option<i64>) -> bool {
    match value {
        Value::Null => wanted.is_none(),
        Value::Int(held) => wanted == Some(*held),
        Value::Text(_) => false,
    }
}

// A record of two fields, each a number or Null.
fn numbers(alloc: Global, first: Option<i64>, second: Option<i64>) -> Result<Record, OutOfMemory>
    ensures { IfOk result (λ row. length row ≡ 2) }
{
    let mut row = Record::empty(alloc, 2)?;
    row.set(0, number(first));
    row.set(1, number(second));
    Ok(row)
}

fn is_pair(row: &Record, wanted: (Option<i64>, Option<i64>)) -> bool {
    row.len() == 2 && is_number(row.get(0), wanted.0) && is_number(row.get(1), wanted.1)
}

// Whether the rows are these pairs.
fn are(rows: &Rows, wanted: &[(Option<i64>, Option<i64>)]) -> bool {
    rows.len() == wanted.len()
        && rows
            .rows()
            .iter()
            .zip(wanted)
            .all(|(row, pair)| is_pair(row, *pair))
}

// Emits the join of its records, then the left record, and then the right record with a field of the join.
const MATCH: &str = "function f match
r0 = copy join
emit r0
r1 = copy left
emit r1
r2 = copy right
v0 = get join 1
set r2 0 v0
emit r2
end
";

// Emits its record with the second field set to the first, and then as it is.
const MAP: &str = "function f map
r0 = copy in
r1 = copy in
v0 = get r1 0
set r1 1 v0
emit r1
emit r0
end
";

// The valid function that this text spells, in programs with `fields` fields; an error if it spells none.
fn valid(alloc: Global, text: &[u8], fields: u32) -> Result<Valid, Fail>
    requires some { 1 ≤ fields }
    requires few { fields ≤ MAX_FIELDS }
    ensures { IfOk result (λ f. f.fields ≡ fields) }
{
    let Ok((function, _)) = read_function(alloc, text, 0, 1) else {
        return Err(Fail::new("no function"));
    };
    let Ok(valid) = validate(function, fields) else {
        return Err(Fail::new("not valid"));
    };
    Ok(valid)
}

// The function of this text and kind, for records of two fields.
fn function(alloc: Global, text: &str, kind: Kind) -> Result<Valid, Fail>
    ensures kind { IfOk result (λ f. f.function.kind ≡ kind) }
    ensures fields { IfOk result (λ f. f.fields ≡ 2) }
{
    let f = valid(alloc, text.as_bytes(), 2)?;
    if f.function().kind != kind {
        return Err(Fail::new("another kind"));
    }
    Ok(f)
}

// No program shows this: in none do both sides of a pair have a value in one field, and none shows in which order a
// call emits.
#[test]
fn a_pair_is_joined(rt: HostRuntime) -> Result<(), Fail> {
    let alloc = rt.alloc();
    let f = function(alloc, MATCH, Kind::Match)?;
    let left = numbers(alloc, None, Some(1))?;
    let rows = call_pair(alloc, &f, &left, &numbers(alloc, Some(2), Some(3))?)?;
    let (join, changed) = ((Some(2), Some(1)), (Some(1), Some(3)));
    assert!(rt; are(&rows, &[join, (None, Some(1)), changed]));
    // what is Null on both sides is Null in the join
    let rows = call_pair(alloc, &f, &left, &numbers(alloc, None, None)?)?;
    assert!(rt; are(&rows, &[(None, Some(1)), (None, Some(1)), (Some(1), None)]));
    Ok(())
}

// A record that is emitted unchanged at a call's end is moved, and comes after what was emitted before.
#[test]
fn calls_append(rt: HostRuntime) -> Result<(), Fail> {
    let alloc = rt.alloc();
    let f = function(alloc, MAP, Kind::Map)?;
    let mut scratch = Scratch::new(alloc);
    let mut out = Rows::new(alloc);
    let first = numbers(alloc, Some(1), None)?;
    map_into(alloc, &f, first, &mut scratch, &mut out)?;
    let second = numbers(alloc, Some(2), Some(5))?;
    map_into(alloc, &f, second, &mut scratch, &mut out)?;
    let (one, two) = ((Some(1), Some(1)), (Some(2), Some(2)));
    assert!(rt; are(&out, &[one, (Some(1), None), two, (Some(2), Some(5))]));
    Ok(())
}
