//! Explanations over files in memory.

use explain_report::explain;
use pact_outside::{FailList, MemFeed, MemFiles, NamedFile};
use pact_record::{Bytes, OutOfMemory};
use std::alloc::Global;

const PROGRAM: &str = "pact 1
fields 4
source s s.csv int:0 int:1
function f map
  r0 = copy in
  emit r0
end
map m f s
sink m 0 1
";

fn feed(alloc: Global, program: &str, rows: &str) -> Result<MemFeed, OutOfMemory> {
    let mut files = MemFiles::new(alloc);
    for (name, text) in [("m.pact", program), ("s.csv", rows)] {
        files.push(NamedFile {
            name: Bytes::from_slice(alloc, name.as_bytes())?,
            bytes: Bytes::from_slice(alloc, text.as_bytes())?,
        })?;
    }
    Ok(MemFeed::new(files, 65536, FailList::new(alloc)))
}

// Whether the explanation has this status and begins with this text.
fn begins(
    alloc: Global,
    words: &[&str],
    program: &str,
    rows: &str,
    status: u8,
    text: &str,
) -> Result<bool, OutOfMemory> {
    let mut feed = feed(alloc, program, rows)?;
    let found = explain(alloc, words, &mut feed)?;
    Ok(found.status == status && found.text.bytes().starts_with(text.as_bytes()))
}

#[test]
fn refusals_are_foretold(rt: HostRuntime) -> Result<(), OutOfMemory> {
    let alloc = rt.alloc();
    let words: &[&str] = &["run", "m.pact"];
    assert!(&rt; begins(alloc, words, PROGRAM, "1,2\n", 0, "no fault found\n")?);
    let bad = "source s: row 1 column 2: why 2\ns.csv:1:3\n    1,x\n      ^\n";
    assert!(&rt; begins(alloc, words, PROGRAM, "1,x\n", 7, bad)?);
    let none = "cannot read n.pact\n";
    assert!(&rt; begins(alloc, &["sets", "n.pact"], PROGRAM, "1,2\n", 3, none)?);
    let faulty = "pact 1\nfields 4\nfunction f map\n  emitt r0\nend\n";
    let fault = "m.pact:4: text fault 3\nm.pact:4:3\n      emitt r0\n      ^^^^^\n";
    assert!(&rt; begins(alloc, words, faulty, "1,2\n", 5, fault)?);
    let usage = "usage: pact COMMAND ARGUMENTS\n    pact rum m.pact\n         ^^^\n";
    assert!(&rt; begins(alloc, &["rum", "m.pact"], PROGRAM, "1,2\n", 2, usage)?);
    let unnamed = "t: P11\n";
    assert!(&rt;
        begins(
            alloc,
            &["iterate", "m.pact", "t", "2"],
            PROGRAM,
            "1,2\n",
            6,
            unnamed
        )?
    );
    assert!(&rt; begins(alloc, &["--line", "1,5", "m.pact"], PROGRAM, "1,2\n", 0, "")?);
    Ok(())
}
