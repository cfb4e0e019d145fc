//! Lines made in parts, compared with those that one thread makes; and rows that are sorted, projected and written
//! whole.

ghost use Rattle.std.specs.Prelude.{◌≡◌, ◌<◌, ◌∷◌, [], length, IfOk};
ghost use Rattle.std.specs.List.{AllByRecursion};

use bag_lines::{sorted_lines, sorted_lines_on_threads};
use csv_sink::write_rows;
use pact_bag::{Rows, project, sort_rows};
use pact_record::{Record, Text, Value};
use std::alloc::Global;
use std::test::Fail;
use std::thread::Threads;

// A row of a number and a text.
fn row_of(alloc: Global, number: i64, text: &[u8]) -> Result<Record, Fail>
    ensures { IfOk result (λ row. length row ≡ 2) }
{
    let mut row = Record::empty(alloc, 2)?;
    row.set(0, Value::Int(number));
    let Ok(text) = Text::from_bytes(alloc, text) else {
        return Err(Fail::new("no text"));
    };
    row.set(1, Value::Text(text));
    Ok(row)
}

// This number of unsorted rows. Each is equal to the row ten places after it.
fn rows_of(alloc: Global, count: u32) -> Result<Rows, Fail>
    ensures { IfOk result (AllByRecursion (λ row. AllByRecursion (λ field. field < length row) (0 ∷ 1 ∷ []))) }
{
    let mut rows = Rows::new(alloc);
    for n in 0..count {
        let number = 4 - i64::from(n % 5);
        let row = if n % 2 == 0 {
            row_of(alloc, number, b"a,b")?
        } else {
            row_of(alloc, number, b"c")?
        };
        rows.push(row)?;
    }
    Ok(rows)
}

// Whether the lines are the same in every number of parts.
fn same_in_parts<R: Threads + Sync>(rt: &R, alloc: Global, count: u32) -> Result<bool, Fail> {
    let by_one = sorted_lines(alloc, rows_of(alloc, count)?, &[0, 1])?;
    for parts in 0..9u32 {
        let in_parts = sorted_lines_on_threads(rt, alloc, rows_of(alloc, count)?, &[0, 1], parts)?;
        if in_parts.bytes() != by_one.bytes() {
            return Ok(false);
        }
    }
    Ok(true)
}

#[test]
fn lines_in_parts_are_those_of_one_thread(rt: HostRuntime) -> Result<(), Fail> {
    for count in 0..10u32 {
        assert!(rt; same_in_parts(&rt, rt.alloc(), count)?);
    }
    assert!(rt; same_in_parts(&rt, rt.alloc(), 50)?);
    assert!(rt; same_in_parts(&rt, rt.alloc(), 1000)?);
    let lines = sorted_lines_on_threads(&rt, rt.alloc(), rows_of(rt.alloc(), 6)?, &[0, 1], 4)?;
    let text: &[u8] = b"0,\"a,b\"\n1,c\n2,\"a,b\"\n3,c\n4,\"a,b\"\n4,c\n";
    assert!(rt; lines.bytes() == text);
    Ok(())
}

fn two_rows(alloc: Global) -> Result<Rows, Fail>
    ensures { IfOk result (AllByRecursion (λ row. AllByRecursion (λ field. field < length row) (1 ∷ 0 ∷ 1 ∷ []))) }
{
    let mut rows = Rows::new(alloc);
    rows.push(row_of(alloc, 7, b"a,b")?)?;
    rows.push(row_of(alloc, -7, b"")?)?;
    Ok(rows)
}

#[test]
fn rows_are_sorted_and_projected(rt: HostRuntime) -> Result<(), Fail> {
    let sorted = sort_rows(rows_of(rt.alloc(), 12)?)?;
    let lines = sorted_lines(rt.alloc(), rows_of(rt.alloc(), 12)?, &[0, 1])?;
    assert!(rt; write_rows(rt.alloc(), &sorted)?.bytes() == lines.bytes());
    let projected = project(rt.alloc(), &two_rows(rt.alloc())?, &[1, 0, 1])?;
    let text: &[u8] = b"\"a,b\",7,\"a,b\"\n,-7,\n";
    assert!(rt; write_rows(rt.alloc(), &projected)?.bytes() == text);
    let none = project(rt.alloc(), &Rows::new(rt.alloc()), &[1, 0, 1])?;
    assert!(rt; write_rows(rt.alloc(), &none)?.bytes().is_empty());
    Ok(())
}
