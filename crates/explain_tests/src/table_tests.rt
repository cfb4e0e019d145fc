//! The tables of commands and options against the reader of the words.

use explain_usage::tables::{COMMANDS, CommandRow, OPTIONS, Opt, Takes};
use explain_usage::usage::{are_taken, put_refused_words};
use explain_words::{Page, Printed, read_line};
use pact_record::OutOfMemory;
use std::alloc::Global;

// The words of a command: `word` as the operand at `place`, samples as the other operands, and then `more`.
fn line_of(
    alloc: Global,
    row: CommandRow,
    place: usize,
    word: &str,
    more: &str,
) -> Result<String, OutOfMemory> {
    let mut line = String::from_str(alloc, row.name)?;
    for (at, operand) in row.operands.iter().enumerate() {
        line.push_str(" ")?;
        if at == place {
            line.push_str(word)?;
        } else {
            line.push_str(operand.sample())?;
        }
    }
    line.push_str(more)?;
    Ok(line)
}

// Whether `pact` takes the words of a line.
fn takes_line(alloc: Global, line: &str) -> Result<bool, OutOfMemory> {
    let words: Vec<&str> = line.split(' ').collect(alloc)?;
    are_taken(alloc, &words)
}

fn takes_operand(
    alloc: Global,
    row: CommandRow,
    place: usize,
    number: u64,
) -> Result<bool, OutOfMemory> {
    let digits = number.to_string(alloc)?;
    takes_line(
        alloc,
        line_of(alloc, row, place, digits.as_str(), "")?.as_str(),
    )
}

fn takes_flag(alloc: Global, row: CommandRow, option: Opt) -> Result<bool, OutOfMemory> {
    let mut line = line_of(alloc, row, 9, "", " ")?;
    line.push_str(option.word())?;
    takes_line(alloc, line.as_str())
}

fn takes_option(
    alloc: Global,
    row: CommandRow,
    option: Opt,
    value: &str,
) -> Result<bool, OutOfMemory> {
    let mut line = line_of(alloc, row, 9, "", " ")?;
    line.push_str(option.word())?;
    line.push_str(" ")?;
    line.push_str(value)?;
    takes_line(alloc, line.as_str())
}

fn takes_number(
    alloc: Global,
    row: CommandRow,
    option: Opt,
    number: u64,
) -> Result<bool, OutOfMemory> {
    let digits = number.to_string(alloc)?;
    takes_option(alloc, row, option, digits.as_str())
}

#[test]
fn operands_have_their_ranges(rt: HostRuntime) -> Result<(), OutOfMemory> {
    let alloc = rt.alloc();
    for row in &COMMANDS {
        assert!(&rt;
            takes_line(alloc, line_of(alloc, *row, 9, "", "")?.as_str())?,
            "{}",
            row.name
        );
        for (place, operand) in row.operands.iter().enumerate() {
            if let Takes::Range(low, high) = operand.takes() {
                assert!(&rt; takes_operand(alloc, *row, place, low)?, "{} low", row.name);
                assert!(&rt;
                    takes_operand(alloc, *row, place, high)?,
                    "{} high",
                    row.name
                );
                assert!(&rt;
                    !takes_operand(alloc, *row, place, high.saturating_add(1))?,
                    "{} above",
                    row.name
                );
                assert!(&rt;
                    low == 0 || !takes_operand(alloc, *row, place, low.saturating_sub(1))?,
                    "{} below",
                    row.name
                );
            }
        }
    }
    Ok(())
}

// Whether an option takes the numbers of its range and no others, or none if the command doesn't have it.
fn has_range(
    alloc: Global,
    row: CommandRow,
    option: Opt,
    low: u64,
    high: u64,
) -> Result<bool, OutOfMemory> {
    let is_own = row.has(option);
    Ok(
        takes_number(alloc, row, option, low)? == is_own
            && takes_number(alloc, row, option, high)? == is_own
            && !takes_number(alloc, row, option, high.saturating_add(1))?
            && !takes_number(alloc, row, option, low.saturating_sub(1))?,
    )
}

// Whether an option takes `hash` and `sort` and not another word, or none if the command doesn't have it.
fn has_ways(alloc: Global, row: CommandRow, option: Opt) -> Result<bool, OutOfMemory> {
    let is_own = row.has(option);
    Ok(
        takes_option(alloc, row, option, "hash")? == is_own
            && takes_option(alloc, row, option, "sort")? == is_own
            && !takes_option(alloc, row, option, "tree")?,
    )
}

// Whether a command that has the option takes it without a value only, and another command not at all.
fn is_flag(alloc: Global, row: CommandRow, option: Opt) -> Result<bool, OutOfMemory> {
    Ok(
        takes_flag(alloc, row, option)? == row.has(option)
            && !takes_option(alloc, row, option, "1")?,
    )
}

#[test]
fn options_have_their_values(rt: HostRuntime) -> Result<(), OutOfMemory> {
    let alloc = rt.alloc();
    for row in &COMMANDS {
        for option in &OPTIONS {
            let is_right = match option.takes() {
                Takes::Range(low, high) => has_range(alloc, *row, *option, low, high)?,
                Takes::Way | Takes::Anything => has_ways(alloc, *row, *option)?,
                Takes::Nothing => is_flag(alloc, *row, *option)?,
            };
            assert!(&rt; is_right, "{} {}", row.name, option.word());
        }
    }
    Ok(())
}

// Whether the explanation of words has this line.
fn has_line(alloc: Global, words: &[&str], line: &[u8]) -> Result<bool, OutOfMemory> {
    let mut page = Page::new(alloc);
    put_refused_words(alloc, &mut page, words)?;
    for found in page.bytes().split(|byte| *byte == b'\n') {
        if found == line {
            return Ok(true);
        }
    }
    Ok(false)
}

#[test]
fn the_wrong_word_is_marked(rt: HostRuntime) -> Result<(), OutOfMemory> {
    let alloc = rt.alloc();
    let few: &[&str] = &["run", "m.pact", "--workers", "17"];
    assert!(&rt; has_line(alloc, few, b"    pact run m.pact --workers 17")?);
    assert!(&rt; has_line(alloc, few, b"                              ^^")?);
    assert!(&rt; has_line(alloc, few, b"cure: pact run m.pact --workers 16")?);
    assert!(&rt; has_line(alloc, &["rum", "m.pact"], b"cure: pact run m.pact")?);
    assert!(&rt;
        has_line(
            alloc,
            &["--counts", "run", "m.pact"],
            b"cure: pact run --counts m.pact"
        )?
    );
    assert!(&rt; has_line(alloc, &["check", "m.pact"], b"the operand CERT is missing")?);
    assert!(&rt; has_line(alloc, &["run", "m.pact", "s.csv"], b"cure: pact run m.pact")?);
    assert!(&rt;
        has_line(
            alloc,
            &["run", "m.pact", "-c"],
            b"cure: pact run m.pact --counts"
        )?
    );
    assert!(&rt;
        has_line(
            alloc,
            &["gen", "1", "1,000"],
            b"expected: a whole number without commas, 0 to 1000000"
        )?
    );
    Ok(())
}

#[test]
fn lines_about_programs_are_read(rt: HostRuntime) -> Result<(), OutOfMemory> {
    assert!(&rt;
        read_line("function f: V3 at statement 2")
            == Some(Printed::Function {
                name: "f",
                code: 3,
                at: 2
            })
    );
    assert!(&rt;
        read_line("m.pact:5: text fault 12")
            == Some(Printed::Text {
                name: "m.pact",
                line: 5,
                what: 12
            })
    );
    assert!(&rt;
        read_line("program: P9")
            == Some(Printed::Program {
                name: "program",
                code: 9
            })
    );
    assert!(&rt;
        read_line("s.csv: P11")
            == Some(Printed::Program {
                name: "s.csv",
                code: 11
            })
    );
    Ok(())
}

#[test]
fn lines_about_other_files_are_read(rt: HostRuntime) -> Result<(), OutOfMemory> {
    assert!(&rt;
        read_line("source s: row 1 column 0: why 1")
            == Some(Printed::Row {
                source: "s",
                row: 1,
                column: 0,
                why: 1
            })
    );
    assert!(&rt;
        read_line("certificate refused: step 2: C4 side 2")
            == Some(Printed::Certificate {
                number: 4,
                step: 2,
                why: "side 2"
            })
    );
    Ok(())
}

#[test]
fn lines_that_pact_does_not_print_are_left_alone(rt: HostRuntime) -> Result<(), OutOfMemory> {
    for line in [
        "",
        "1,5",
        "accepted",
        " function f: V3 at statement 0",
        "function f: V9 at statement 0",
        "function F: V3 at statement 0",
        "function f: V3 at statement",
        "m: P12",
        "m: P9",
        "M: P5",
        "m.pact:5: text fault 13",
        "m.pact:x: text fault 3",
        "source s: row 1 column 1: why 5",
        "source s: row -1 column 1: why 2",
        "m.pact is longer than 5 bytes",
        "usage: other COMMAND",
        "cannot read ",
        "Out of memory",
        "certificate refused: step 1: C5",
        "certificate refused: C4 side 2",
        "pact: something else",
        "s out 4",
        "r in 2 out 1",
    ] {
        assert!(&rt; read_line(line).is_none(), "{line}");
    }
    Ok(())
}
