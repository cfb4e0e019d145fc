//! Tables of records with two fields.

ghost use Rattle.std.specs.Prelude.{◌≡◌, length, IfOk};
ghost use Rattle.pact_record.specs.Widths.{AreWide};

use pact_bag::Rows;
use pact_record::{Record, Text, Value};
use std::alloc::Global;
use std::test::Fail;

// A number, or Null, and a text, which is Null if it is empty.
fn row(alloc: Global, number: Option<i64>, text: &str) -> Result<Record, Fail>
    ensures { IfOk result (λ row. length row ≡ 2) }
{
    let mut row = Record::empty(alloc, 2)?;
    if let Some(number) = number {
        row.set(0, Value::Int(number));
    }
    if text.len() > 0 {
        let Ok(text) = Text::from_bytes(alloc, text.as_bytes()) else {
            return Err(Fail::new("no text"));
        };
        row.set(1, Value::Text(text));
    }
    Ok(row)
}

/// Records with these numbers and texts.
pub fn table(alloc: Global, cells: &[(Option<i64>, &str)]) -> Result<Rows, Fail>
    ensures { IfOk result (AreWide 2) }
{
    let mut rows = Rows::new(alloc);
    for (number, text) in cells {
        rows.push(row(alloc, *number, text)?)?;
    }
    Ok(rows)
}

// Two numbers whose hash codes in `GroupTable` are the same for every `n`. A step of the code multiplies by
// 11400714819323198485, modulo 2^64, and there are two steps between the two numbers.
fn colliding_row(alloc: Global, n: u64) -> Result<Record, Fail>
    ensures { IfOk result (λ row. length row ≡ 2) }
{
    let back = n.wrapping_mul(16088033396387240377);
    let mut row = Record::empty(alloc, 2)?;
    row.set(0, Value::Int(n.cast_signed()));
    row.set(1, Value::Int(0u64.wrapping_sub(back).cast_signed()));
    Ok(row)
}

/// Records with `keys` different keys of two numbers, all in one bucket of `GroupTable`, with two records for each key.
pub fn colliding(alloc: Global, keys: u64) -> Result<Rows, Fail>
    ensures { IfOk result (AreWide 2) }
{
    let mut rows = Rows::new(alloc);
    for n in 0..keys {
        rows.push(colliding_row(alloc, n)?)?;
        rows.push(colliding_row(alloc, n)?)?;
    }
    Ok(rows)
}

// Numbers with different hash codes. `IndexMap` hashes a code again and folds that to 32 bits, of which the last 22 are
// zero here. A map of at most 2^22 places has one place for all of them.
const CROWDED: [i64; 40] = [
    367865, 3550971, 6486396, 6943846, 7445927, 10489089, 11952364, 16310173, 19878105, 25846963,
    29510973, 31745248, 32297415, 33738784, 52226990, 52383558, 54233256, 54684893, 58012086,
    65191763, 69238444, 73265537, 74825679, 79869215, 86183874, 86616136, 88263495, 89991803,
    98672284, 100894995, 102288833, 103469864, 105180538, 112276029, 113420738, 118340935,
    123314639, 132504787, 134150263, 142765379,
];

/// Records whose keys of one number all have the same place in the map inside `GroupTable`, with two records for each
/// key.
pub fn crowded(alloc: Global) -> Result<Rows, Fail>
    ensures { IfOk result (AreWide 2) }
{
    let mut rows = Rows::new(alloc);
    for n in &CROWDED {
        rows.push(row(alloc, Some(*n), "")?)?;
        rows.push(row(alloc, Some(*n), "a")?)?;
    }
    Ok(rows)
}
