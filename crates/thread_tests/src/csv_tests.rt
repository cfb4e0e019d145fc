//! Texts of sources read in parts, compared with the read by one thread.

ghost use Rattle.std.specs.Prelude.{◌≤◌, ◌<◌, length, IfOk};
ghost use Rattle.std.specs.List.{AllByRecursion};

use csv_cuts::cut_near;
use csv_parts::read_source_on_threads;
use csv_source::{BadRow, read_source};
use pact_bag::Rows;
use pact_record::{Column, Columns, OutOfMemory};
use std::alloc::Global;
use std::test::Fail;
use std::thread::Threads;

// A column of texts and one of numbers.
fn columns_of(alloc: Global) -> Result<Columns, OutOfMemory>
    ensures { IfOk result (λ columns. AllByRecursion (λ column. column.field < 2) columns) }
{
    let mut columns = Columns::new(alloc);
    columns.push(Column {
        field: 1,
        text: true,
    })?;
    columns.push(Column {
        field: 0,
        text: false,
    })?;
    Ok(columns)
}

// The result of a read of a text, and how it compares with another one.
#[derive(Clone, Copy, PartialEq)]
enum Outcome {
    SameRows,
    SameBadRow,
    Other,
}

fn compare(one: &Result<Rows, BadRow>, other: &Result<Rows, BadRow>) -> Outcome {
    match (one, other) {
        (Ok(a), Ok(b)) => if a.rows() == b.rows() {
            Outcome::SameRows
        } else {
            Outcome::Other
        },
        (
            Err(BadRow::At { row, column, why }),
            Err(
                BadRow::At {
                    row: other_row,
                    column: other_column,
                    why: other_why,
                },
            ),
        ) => if row == other_row && column == other_column && why == other_why {
            Outcome::SameBadRow
        } else {
            Outcome::Other
        },
        _ => Outcome::Other,
    }
}

// The result of all reads of the text, by one thread and in each number of parts from 0 to `most`.
fn outcome_of<R: Threads + Sync>(
    rt: &R,
    alloc: Global,
    text: &[u8],
    most: u32,
) -> Result<Outcome, Fail> {
    let columns = columns_of(alloc)?;
    let by_one = read_source(alloc, text, &columns, 2);
    let outcome = compare(&by_one, &by_one);
    for parts in 0..=most {
        let in_parts = read_source_on_threads(rt, alloc, text, &columns, 2, parts);
        if compare(&by_one, &in_parts) != outcome {
            return Ok(Outcome::Other);
        }
    }
    Ok(outcome)
}

const GOOD: &[&[u8]] = &[
    b"",
    b"\n",
    b"a,1",
    b"a,1\n",
    b"a,1\nb,2\nc,3\nd,4\n",
    b"a,1\nb,2\nc,3\nd,4",
    b"a,1\r\nb,2\r\nc,3\r\nd,4\r\n",
    b"a,1\r\nb,2\r\nc,3\r\nd,4",
    b"a,1\rb,2\rc,3\rd,4\r",
    b"a,1\n\rb,2\n\rc,3\n\r",
    b"\n\n\na,1\n\n\n\nb,2\n\n\n\n",
    b"\r\n\r\na,1\r\n\r\nb,2\r\n",
    b"\xEF\xBB\xBFa,1\nb,2\nc,3\nd,4\n",
    b"\xEF\xBB\xBF\nb,2\nc,3\nd,4\n",
    b"a,1\n\xEF\xBB\xBFb,2\n\xEF\xBB\xBFc,3\n\xEF\xBB\xBFd,4\n",
    b"a,1\n\xEF\xBB\xBF,2\n\xEF\xBB\xBF,3\n",
    b"\xEF\xBB\xBF\xEF\xBB\xBFa,1\n\xEF\xBB\xBFb,2",
    b"\"a\nb\",1\n\"c\nd\",2\n\"e\nf\",3\n",
    b"a,1\nb,2\nc,3\nd,4\n\"e\nf\",5\n",
    b"a\"b,1\nc\"d,2\ne\"f,3\n",
    b"\"\",1\n\"\"\"\n\",2\n,3\n",
    b"\xEF\xBB\xBF\"a\nb\",1\n\"c\nd\",2\n\"e\nf\",3\n",
    b"\"a\nb\",1\r\n\"c\rd\",2\r\n\r\n\"e\r\nf\",3\r\n",
];

const BAD: &[&[u8]] = &[
    b"\"a\"b\nc\",1\n\"d\"\"\n\"\",\",2\n",
    b"x\nb,2\nc,3\nd,4\n",
    b"a,1\nx\nc,3\nd,4\n",
    b"a,1\nb,2\nx\nd,4\n",
    b"a,1\nb,2\nc,3\nd,x\n",
    b"a,1\nb,x\nc,y\nd,z\n",
    b"a,1\n\n\nb,2\n\nc,3\n\nd,99999999999999999999\n",
    b"a,1\n\xEF\xBB\xBF\nc,3\nd,4\n",
    b"a,1\n\xFF,2\nc,3\nd,4\n",
    b"a,1\nb,2\nc,3\nd,4\n\"e\nf,5\n",
    b"a,1\nb,2\nc,3\nd,4\n\"e\nf",
];

#[test]
fn parts_have_the_rows_of_the_whole(rt: HostRuntime) -> Result<(), Fail> {
    for text in GOOD {
        assert!(rt; outcome_of(&rt, rt.alloc(), text, 8)? == Outcome::SameRows);
    }
    for text in BAD {
        assert!(rt; outcome_of(&rt, rt.alloc(), text, 8)? == Outcome::SameBadRow);
    }
    Ok(())
}

fn inserted(alloc: Global, text: &[u8], at: usize, bytes: &[u8]) -> Result<Vec<u8>, Fail>
    requires { at ≤ length text.now }
{
    let mut made = Vec::new(alloc);
    made.extend_from_slice(&text[..at])?;
    made.extend_from_slice(bytes)?;
    made.extend_from_slice(&text[at..])?;
    Ok(made)
}

const BASES: &[&[u8]] = &[
    b"a,1\nbb,2\n\nccc,3\nd,4",
    b"a,1\r\n\"b\nb\",2\r\n\"\"\"c\",3\n",
    b"\xEF\xBB\xBFa,1\n\"\n\",2\nc,3\n",
];

const INSERTED: &[&[u8]] = &[
    b"\"",
    b"\"\"",
    b"\n",
    b"\r",
    b"\r\n",
    b"\n\"",
    b"\"\n",
    b"\xEF\xBB\xBF",
];

// Whether the parts have what the whole text has, for every place at which these bytes are inserted, including the
// text's end.
fn same_everywhere<R: Threads + Sync>(
    rt: &R,
    alloc: Global,
    text: &[u8],
    bytes: &[u8],
) -> Result<bool, Fail> {
    for at in 0..=text.len() {
        let made = inserted(alloc, text, at, bytes)?;
        if outcome_of(rt, alloc, &made, 4)? == Outcome::Other {
            return Ok(false);
        }
    }
    Ok(true)
}

#[test]
fn quotes_line_ends_and_marks_may_be_anywhere(rt: HostRuntime) -> Result<(), Fail> {
    for text in BASES {
        for bytes in INSERTED {
            assert!(rt; same_everywhere(&rt, rt.alloc(), text, bytes)?);
        }
    }
    Ok(())
}

const ROWS: u64 = 24;

// A text with this number of rows, one of which has a field too few.
fn with_bad_row(alloc: Global, bad: u64) -> Result<Vec<u8>, Fail> {
    let mut text = Vec::new(alloc);
    for row in 0..ROWS {
        if row + 1 == bad {
            text.extend_from_slice(b"x\n")?;
        } else if row % 3 == 0 {
            text.extend_from_slice(b"\"some\nmore\",1\r\n\n")?;
        } else {
            text.extend_from_slice(b"a,1\n")?;
        }
    }
    Ok(text)
}

fn bad_row_of<R: Threads + Sync>(
    rt: &R,
    alloc: Global,
    text: &[u8],
    parts: u32,
) -> Result<u64, Fail> {
    let columns = columns_of(alloc)?;
    match read_source_on_threads(rt, alloc, text, &columns, 2, parts) {
        Err(
            BadRow::At {
                row,
                column: 0,
                why: 1,
            },
        ) => Ok(row),
        _ => Ok(0),
    }
}

#[test]
fn a_bad_row_has_its_number_in_the_whole(rt: HostRuntime) -> Result<(), Fail> {
    for bad in 0..ROWS {
        let text = with_bad_row(rt.alloc(), bad + 1)?;
        for parts in 0..9u32 {
            assert_eq!(rt; bad_row_of(&rt, rt.alloc(), &text, parts)?, bad + 1);
        }
    }
    Ok(())
}

#[test]
fn cuts_are_found(rt: HostRuntime) -> Result<(), Fail> {
    let plain = b"a,1\nb,2\nc,3\nd,4\n";
    assert_eq!(rt; cut_near(plain, 0), Some(4));
    assert_eq!(rt; cut_near(plain, 3), Some(4));
    assert_eq!(rt; cut_near(plain, 4), Some(8));
    assert_eq!(rt; cut_near(plain, 15), Some(16));
    assert_eq!(rt; cut_near(plain, 16), None);
    let quoted = b"\"a\nb\",1\n\"c\"\"\nd\",2\ne\"f,3\n";
    assert_eq!(rt; cut_near(quoted, 0), Some(8));
    assert_eq!(rt; cut_near(quoted, 8), Some(18));
    assert_eq!(rt; cut_near(quoted, 18), Some(24));
    // with byte order marks
    assert_eq!(rt; cut_near(b"\xEF\xBB\xBF\"a\nb\",1\nc,2\n", 0), Some(11));
    assert_eq!(rt; cut_near(b"a,1\n\xEF\xBB\xBFb,2\nc\n", 0), None);
    assert_eq!(rt; cut_near(b"a,1\n\xEF\xBB\xBFb,2\nc\n", 4), Some(11));
    assert_eq!(rt; cut_near(b"a,1\n\xEF\xBB", 0), Some(4));
    Ok(())
}
