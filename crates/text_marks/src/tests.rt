//! Marks of faulty texts, taken from docs/faults.md.

use crate::{
    Expected, cures, expected_at, fault_mark, first_fault, marked_part, open_blocks, statement_line,
};
use pact_record::{Bytes, OutOfMemory};
use std::alloc::Global;
use std::test::Fail;

// What is marked in a text: its first fault's number, the line, and the marked part.
fn is_marked(
    alloc: Global,
    text: &[u8],
    what: u32,
    line: u64,
    part: &[u8],
) -> Result<bool, OutOfMemory> {
    match first_fault(alloc, text)? {
        None => Ok(false),
        Some(fault) => {
            let mark = fault_mark(alloc, text, fault.line, fault.what)?;
            Ok(fault.what == what && fault.line == line && marked_part(text, &mark) == part)
        }
    }
}

// A map with these lines.
fn in_map(alloc: Global, lines: &[u8]) -> Result<Bytes, OutOfMemory> {
    let mut text = Bytes::from_slice(
        alloc,
        b"pact 2\nfields 4\nsource s s.csv int:0 int:1\nfunction f map\n",
    )?;
    text.extend_from_slice(lines)?;
    text.extend_from_slice(b"\nend\nmap m f s\nsink m 0 1\n")?;
    Ok(text)
}

fn is_marked_in_map(
    alloc: Global,
    lines: &[u8],
    what: u32,
    line: u64,
    part: &[u8],
) -> Result<bool, OutOfMemory> {
    let text = in_map(alloc, lines)?;
    is_marked(alloc, text.bytes(), what, line, part)
}

// As declarations from line 5 on.
fn is_marked_declared(
    alloc: Global,
    lines: &[u8],
    what: u32,
    part: &[u8],
) -> Result<bool, OutOfMemory> {
    let mut text = Bytes::from_slice(
        alloc,
        b"pact 1\nfields 8\nsource s s.csv int:0 int:1\nsource t t.csv int:2 int:3\n",
    )?;
    text.extend_from_slice(lines)?;
    text.extend_from_slice(b"\nsink m 0 1\n")?;
    is_marked(alloc, text.bytes(), what, 5, part)
}

#[test]
fn the_faulty_word_is_marked(rt: HostRuntime) -> Result<(), Fail> {
    for (lines, what, line, part) in [
        (b"v0 = text \"a".as_slice(), 2, 5, b"\"a".as_slice()),
        (b"v0 = text \"say \"hi\"\" # c", 2, 5, b"\"say \"hi\"\""),
        (b"  return r0", 3, 5, b"return"),
        (b"v0 = get in # which", 4, 5, b""),
        (b"if v0 > v1", 5, 5, b">"),
        (b"emit r0 r1\r", 5, 5, b"r1"),
        (b"v0 = int 007", 7, 5, b"007"),
        (b"v0 = get in v1", 7, 5, b"v1"),
        (b"v0 := int 1", 8, 5, b":="),
        (b"v0 = get in @r1", 8, 5, b"@r1"),
        (b"v0 = plus v0 v1", 9, 5, b"plus"),
        (b"if v0\nelse\nelse\nend", 10, 7, b"else"),
        (b"# one\r# two", 1, 5, b"\r"),
        (b"# caf\xE9", 1, 5, b"\xE9"),
    ] {
        assert!(rt;
            is_marked_in_map(rt.alloc(), lines, what, line, part)?,
            "{what} {line}"
        );
    }
    for (lines, what, part) in [
        (b"filter m f s".as_slice(), 3, b"filter".as_slice()),
        (b"source u u.csv", 4, b""),
        (b"map m f s t", 5, b"t"),
        (b"source u \"u.csv\" int:4", 6, b"\"u.csv\""),
        (b"sink s 0,1", 7, b"0,1"),
        (b"match j h s t on 0 = 2", 8, b"on"),
        (b"function a join", 9, b"join"),
        (b"end", 10, b"end"),
    ] {
        assert!(rt;
            is_marked_declared(rt.alloc(), lines, what, part)?,
            "{what}"
        );
    }
    for (text, what, line, part) in [
        (
            b"pact 1\nfields 4\nfunction a reduce 1\neach x2 of group\nend\nend\n".as_slice(),
            11,
            4,
            b"x2".as_slice(),
        ),
        (b"pact 1\nfields 4\nfunction a map\n", 10, 3, b""),
        (b"pact 3\nfields 4\n", 12, 1, b"3"),
        (b"pact 1\nsource s s.csv int:0\n", 12, 2, b"source"),
        (b"pact 1\n", 12, 1, b""),
        (b"", 12, 1, b""),
    ] {
        assert!(rt;
            is_marked(rt.alloc(), text, what, line, part)?,
            "{what} {line}"
        );
    }
    Ok(())
}

// What may be at the first fault of a text, and its cures, as text.
fn is_listed(
    alloc: Global,
    text: &[u8],
    item: Expected,
    count: usize,
) -> Result<bool, OutOfMemory> {
    let Some(fault) = first_fault(alloc, text)? else {
        return Ok(false);
    };
    let mark = fault_mark(alloc, text, fault.line, fault.what)?;
    let found = expected_at(alloc, text, &mark)?;
    Ok(found.len() == count && found.items().contains(&item))
}

#[test]
fn what_may_be_there_is_found(rt: HostRuntime) -> Result<(), Fail> {
    let alloc = rt.alloc();
    let text = in_map(alloc, b"v0 = get in v1")?;
    let fields = Expected::Number { low: 0, high: 255 };
    assert!(rt; is_listed(alloc, text.bytes(), fields, 2)?);
    assert!(rt; is_listed(alloc, text.bytes(), Expected::FieldRegister, 2)?);
    let turns = Expected::Number { low: 1, high: 1000 };
    let text = in_map(alloc, b"repeat 0\nend")?;
    assert!(rt; is_listed(alloc, text.bytes(), turns, 1)?);
    let text = in_map(alloc, b"emit r0 r1")?;
    assert!(rt; is_listed(alloc, text.bytes(), Expected::LineEnd, 1)?);
    let text = in_map(alloc, b"v0 = int +5")?;
    assert!(rt; is_listed(alloc, text.bytes(), Expected::Signed, 1)?);
    assert!(rt;
        is_listed(
            alloc,
            b"pact 1\nfields 4\nsource S s.csv int:0\n",
            Expected::Name,
            1
        )?
    );
    assert!(rt;
        is_listed(
            alloc,
            b"pact 1\nfields 4\nsource s \"s.csv\" int:0\n",
            Expected::FileName,
            1
        )?
    );
    assert!(rt;
        is_listed(
            alloc,
            b"pact 3\nfields 4\n",
            Expected::Number { low: 1, high: 2 },
            1
        )?
    );
    assert!(rt; is_listed(alloc, b"", Expected::Word(b"pact"), 1)?);
    let text = in_map(alloc, b"emitt r0")?;
    let mark = fault_mark(alloc, text.bytes(), 5, 3)?;
    let found = cures(alloc, text.bytes(), &mark)?;
    assert!(rt; found.words.len() == 1 && found.words[0] == b"emit".as_slice() && !found.deletes);
    Ok(())
}

#[test]
fn lines_of_statements(rt: HostRuntime) -> Result<(), Fail> {
    let text =
        b"pact 1\nfields 4\nfunction f reduce 1\n# none\neach x1 of group\n if v0\n  emit r0\n else\n  emit r1\n end\nend\r\n\nemit r2\nend\nfunction f map\nemit r3\nend\n";
    for (nth, at, line) in [
        (0, 0, Some(5)),
        (0, 1, Some(6)),
        (0, 2, Some(7)),
        (0, 3, Some(9)),
        (0, 4, Some(13)),
        (0, 5, None),
        (1, 0, Some(16)),
        (2, 0, None),
    ] {
        assert!(rt; statement_line(text, b"f", nth, at) == line, "{nth} {at}");
    }
    let open = open_blocks(rt.alloc(), text, 9)?;
    assert!(rt; open.as_slice() == [3, 5, 6].as_slice());
    Ok(())
}
