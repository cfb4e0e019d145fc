//! Rows that a seed determines.

ghost use Rattle.std.specs.Prelude.{◌≡◌, ◌≤◌, ◌<◌, ◌++◌, length, codes, decimal, IfOk, IsUtf8};
ghost use Rattle.pact_record.specs.Limits.{text_limit};
ghost use Rattle.pact_gen.specs.Generated.{behind_row, generated, row_behind, seed_limit};
ghost use Rattle.pact_gen.specs.Generated as specs;

use itoa::Buffer;
use pact_bag::Rows;
use pact_record::{NotText, OutOfMemory, Record, Text, Value};
use std::alloc::Global;

const MODULUS: u64 = 2_147_483_647;

// The next number.
#[tactic(auto, unfolding(crate::specs::Generated::stepped))]
fn stepped(x: u32) -> u32
    ensures { result ≡ specs.stepped x }
{
    ((u64::from(x) * 48_271 + 1) % MODULUS) as u32
}

// A letter and a number of at most two digits.
fn text_bytes(alloc: Global, number: u32) -> Result<Vec<u8>, OutOfMemory>
    requires { number < 100 }
    ensures bytes { IfOk result (λ b. b.items ≡ codes "t" ++ decimal number) }
    ensures short { IfOk result (λ b. length b.items ≤ text_limit) }
    ensures utf8 { IfOk result (λ b. IsUtf8 b.items) }
{
    let mut digits = Buffer::new();
    let mut bytes = Vec::with_capacity(alloc, 3)?;
    bytes.push_reserved(b't');
    bytes.extend_from_slice(digits.format(number).as_bytes())?;
    Ok(bytes)
}

fn text_value(alloc: Global, x: u32) -> Result<Value, OutOfMemory>
    ensures { IfOk result (λ v. v ≡ specs.text_value x) }
{
    if x % 10 == 0 {
        return Ok(Value::Null);
    }
    let bytes = text_bytes(alloc, x % 100)?;
    match Text::from_bytes(alloc, &bytes) {
        Ok(text) => Ok(Value::Text(text)),
        Err(NotText::Memory) => Err(OutOfMemory),
        Err(NotText::Utf8) => unreachable!(),
        Err(NotText::Long) => unreachable!(),
    }
}

fn row_of(alloc: Global, first: u32, second: u32, third: u32) -> Result<Record, OutOfMemory>
    ensures { IfOk result (λ row. row ≡ specs.row_of first second third) }
{
    let text = text_value(alloc, third)?;
    let mut values = Vec::with_capacity(alloc, 4)?;
    values.push_reserved(Value::Int(i64::from(first % 1000)));
    values.push_reserved(Value::Int(i64::from(second % 2001) - 1000));
    values.push_reserved(text);
    values.push_reserved(Value::Null);
    Ok(Record::from_vec(values))
}

// The row that follows from a number. The number then becomes the one after the row.
fn next_row(alloc: Global, x: &mut u32) -> Result<Record, OutOfMemory>
    ensures row { IfOk result (λ row. row ≡ row_behind x.old) }
    ensures behind { x.new ≡ behind_row x.old }
{
    let first = stepped(*x);
    let second = stepped(first);
    *x = stepped(second);
    row_of(alloc, first, second, *x)
}

/// This number of rows with four fields, the last of which is Null. Out of memory is the only error.
pub fn make_input(alloc: Global, seed: u32, rows: u32) -> Result<Rows, OutOfMemory>
    requires { seed ≤ seed_limit }
    ensures { IfOk result (λ made. made ≡ generated seed rows) }
{
    let mut made = Rows::with_capacity(alloc, rows as usize)?;
    let mut x = seed;
    for _ in 0..rows {
        made.push(next_row(alloc, &mut x)?)?;
    }
    Ok(made)
}
