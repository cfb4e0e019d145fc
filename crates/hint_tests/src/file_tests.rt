//! Places in files, and what is said of files.

ghost use Rattle.std.specs.Prelude.{◌<◌, IfOk};
ghost use Rattle.std.specs.List.{AllByRecursion};

use csv_places::{FileHint, NumberFault, file_hints, number_fault, place_of};
use csv_source::{BadRow, read_source};
use pact_record::{Column, Columns, OutOfMemory};
use std::alloc::Global;
use std::test::Fail;

fn two_columns(alloc: Global) -> Result<Columns, OutOfMemory>
    ensures { IfOk result (λ columns. AllByRecursion (λ column. column.field < 2) columns) }
{
    let mut columns = Columns::new(alloc);
    columns.push(Column {
        field: 0,
        text: true,
    })?;
    columns.push(Column {
        field: 1,
        text: true,
    })?;
    Ok(columns)
}

// The first row that hasn't two fields, if there is one.
fn first_other(text: &[u8]) -> Option<u64> {
    for row in 1..100u64 {
        let place = place_of(text, row, 0)?;
        if place.fields != 2 {
            return Some(row);
        }
    }
    None
}

// Whether the rows have the places, and the numbers of fields, that csv_source finds.
fn agrees(alloc: Global, text: &[u8]) -> Result<bool, OutOfMemory> {
    let columns = two_columns(alloc)?;
    let other = first_other(text);
    match read_source(alloc, text, &columns, 2) {
        Ok(rows) => {
            let count = rows.len() as u64;
            let behind = place_of(text, count.saturating_add(1), 0);
            let last = place_of(text, count, 0);
            Ok(other.is_none() && behind.is_none() && (count == 0 || last.is_some()))
        }
        Err(BadRow::At { row, .. }) => Ok(other == Some(row)),
        Err(BadRow::Memory) => Ok(false),
    }
}

const TEXTS: &[&[u8]] = &[
    b"",
    b"\n\r\n\n",
    b"a,1",
    b"a,1\r\nb,2\r\n",
    b"a,1\rb,2\n\rc,3",
    b"\n\na,1\n\n\nb,2\nx",
    b"\xEF\xBB\xBFa,1\nb,2\n",
    b"\xEF\xBB\xBF\nb,2,3\n",
    b"\"a\nb\",1\n\"c\r\nd\",2\n",
    b"a\"b,1\n\"c\"d,2\n\"e\"\"f\",\"\"\n",
    b"\"\"\"\n\",1\n,\n\",\",x\n",
    b"a,1\nb,\"2\nc,3\nd,4\n",
    b"a,1\nb,2,\n",
    b"a,1\n\"b\"\"c,2\n",
    b"\"",
    b",",
];

#[test]
fn rows_have_their_places(rt: HostRuntime) -> Result<(), Fail> {
    for text in TEXTS {
        assert!(rt; agrees(rt.alloc(), text)?);
    }
    Ok(())
}

// The part of the text that is at that row and column.
fn part(text: &str, row: u64, column: u32) -> Option<&str> {
    let place = place_of(text.as_bytes(), row, column)?;
    text.get(place.from..place.to)
}

#[test]
fn columns_have_their_places(rt: HostRuntime) -> Result<(), Fail> {
    let text = "a,\"b\"\"\nc\",d\n\n,,x";
    assert!(rt; part(text, 1, 0) == Some("a,\"b\"\"\nc\",d"));
    assert!(rt; part(text, 1, 2) == Some("\"b\"\"\nc\""));
    assert!(rt; part(text, 1, 3) == Some("d"));
    assert!(rt; part(text, 1, 4).is_none());
    assert!(rt; part(text, 2, 1) == Some(""));
    assert!(rt; part(text, 2, 3) == Some("x"));
    assert!(rt; part(text, 3, 0).is_none());
    assert!(rt;
        matches!(place_of(text.as_bytes(), 1, 3), Some(place) if place.line == 2 && place.row_line == 1)
    );
    assert!(rt; matches!(place_of(text.as_bytes(), 2, 1), Some(place) if place.line == 4));
    Ok(())
}

const FAULTS: &[(&str, Option<NumberFault>)] = &[
    ("", None),
    ("-12", None),
    ("+7", None),
    (" ", Some(NumberFault::Blank)),
    ("1 ", Some(NumberFault::BlankAround)),
    ("9223372036854775808", Some(NumberFault::TooLarge)),
    ("44.88", Some(NumberFault::Decimals)),
    ("1,000", Some(NumberFault::Thousands)),
    ("1.000.000", Some(NumberFault::Thousands)),
    ("-1 000.5", Some(NumberFault::Thousands)),
    ("1e6", Some(NumberFault::Exponent)),
    ("0x1F", Some(NumberFault::Hexadecimal)),
    ("2024-01-05", Some(NumberFault::Date)),
    ("n/a", Some(NumberFault::Unknown)),
    ("yes", Some(NumberFault::Truth)),
    ("5 kg", Some(NumberFault::Unit)),
    ("price", Some(NumberFault::Word)),
    ("?!", Some(NumberFault::Other)),
];

#[test]
fn values_have_their_faults(rt: HostRuntime) -> Result<(), Fail> {
    for (value, fault) in FAULTS {
        assert!(rt; number_fault(value.as_bytes()) == *fault);
    }
    Ok(())
}

#[test]
fn files_have_their_hints(rt: HostRuntime) -> Result<(), Fail> {
    let alloc = rt.alloc();
    let columns = two_columns(alloc)?;
    let quiet = file_hints(alloc, b"a,1\n\"b\",2\n", &columns)?;
    assert!(rt; quiet.len() == 0);
    let open = file_hints(alloc, b"a,1\nb,\"2\nc,3\n", &columns)?;
    assert!(rt;
        open.items()
            == [FileHint::NeverClosed {
                row: 2,
                column: 2,
                line: 2
            }]
            .as_slice()
    );
    let named = file_hints(alloc, b"city,rows\na,1\nb,2\n", &columns)?;
    assert!(rt; named.items() == [FileHint::HeaderLike { line: 1 }].as_slice());
    Ok(())
}

// Files of two columns of texts, and whether their first rows look like the names of the columns.
const HEADERS: &[(&[u8], bool)] = &[
    (b"city,rows\na,1\nb,2\n", true),
    (b"city,rows\na,1\nb,x\n", false),
    (b"city,rows\na,1\n", true),
    (b"city,price ($)\na,1\n", true),
    (b"city,Total [net]\na,\nb,1\n", false),
    (b"city,rows\na,1\nb,\nc,3\n", true),
    (b"city,rows\na,1\nb,\nc,\n", false),
    (b"city, rows\na, 1\nb, 2\n", true),
    (b"city,gr\xC3\xB6\xC3\x9Fe\na,1\nb,2\n", true),
    (b"city,5\na,1\nb,2\n", false),
    (b"tea,NULL\nmilk,5\nrice,7\n", false),
    (b"tea,unknown\nmilk,5\nrice,7\n", false),
    (b"tea,true\nmilk,5\nrice,7\n", false),
    (b"tea,price\nmilk,\"1,000\"\nrice,1e3\n", true),
];

#[test]
fn headers_are_rows_of_names(rt: HostRuntime) -> Result<(), Fail> {
    let alloc = rt.alloc();
    let columns = two_columns(alloc)?;
    for (text, named) in HEADERS {
        let found = file_hints(alloc, text, &columns)?;
        assert!(rt; (found.len() == 1) == *named);
    }
    Ok(())
}
