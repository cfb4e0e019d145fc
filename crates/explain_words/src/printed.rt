//! Lines that `pact` prints.

use tac_syntax::is_name;

/// What a line that `pact` printed says.
#[derive(Clone, Copy, Debug, PartialEq, Eq)]
pub enum Printed<'a> {
    OutOfMemory,
    Usage,
    CannotWrite,
    CannotRead {
        name: &'a str,
    },
    Text {
        name: &'a str,
        line: u64,
        what: u32,
    },
    Function {
        name: &'a str,
        code: u32,
        at: u32,
    },
    /// A declaration; `program` has no name of its own.
    Program {
        name: &'a str,
        code: u32,
    },
    Row {
        source: &'a str,
        row: u64,
        column: u32,
        why: u32,
    },
    Long {
        name: &'a str,
        limit: u64,
    },
    /// The fault's number, 0 for a text that isn't a certificate; the step, or 0; and what follows the number.
    Certificate {
        number: u32,
        step: u64,
        why: &'a str,
    },
    /// The launcher found no program to start.
    Launcher,
    /// The launcher builds a program.
    Building,
}

fn are_digits(bytes: &[u8]) -> bool {
    for byte in bytes {
        if !byte.is_ascii_digit() {
            return false;
        }
    }
    !bytes.is_empty()
}

fn number(digits: &str) -> Option<u64> {
    if are_digits(digits.as_bytes()) && digits.len() < 20 {
        digits.parse::<u64>().ok()
    } else {
        None
    }
}

// A number from `low` to `high`.
fn number_in(digits: &str, low: u32, high: u32) -> Option<u32> {
    let found = u32::try_from(number(digits)?).ok()?;
    if low <= found && found <= high {
        Some(found)
    } else {
        None
    }
}

fn text_line(line: &str) -> Option<Printed<'_>> {
    let (place, what) = line.rsplit_once(": text fault ")?;
    let (name, number_there) = place.rsplit_once(":")?;
    if name.is_empty() {
        return None;
    }
    Some(Printed::Text {
        name,
        line: number(number_there)?,
        what: number_in(what, 1, 12)?,
    })
}

fn function_line(line: &str) -> Option<Printed<'_>> {
    let (name, rest) = line.strip_prefix("function ")?.split_once(": V")?;
    let (code, at) = rest.split_once(" at statement ")?;
    if !is_name(name.as_bytes()) {
        return None;
    }
    Some(Printed::Function {
        name,
        code: number_in(code, 1, 8)?,
        at: number_in(at, 0, u32::MAX)?,
    })
}

fn program_line(line: &str) -> Option<Printed<'_>> {
    let (name, code) = line.rsplit_once(": P")?;
    let code = number_in(code, 1, 11)?;
    let fits = match code {
        9 => name == "program",
        11 => !name.is_empty(),
        _ => is_name(name.as_bytes()),
    };
    if fits {
        Some(Printed::Program { name, code })
    } else {
        None
    }
}

fn row_line(line: &str) -> Option<Printed<'_>> {
    let (source, rest) = line.strip_prefix("source ")?.split_once(": row ")?;
    let (row, rest) = rest.split_once(" column ")?;
    let (column, why) = rest.split_once(": why ")?;
    if !is_name(source.as_bytes()) {
        return None;
    }
    Some(Printed::Row {
        source,
        row: number(row)?,
        column: number_in(column, 0, u32::MAX)?,
        why: number_in(why, 1, 4)?,
    })
}

fn long_line(line: &str) -> Option<Printed<'_>> {
    let (name, rest) = line.rsplit_once(" is longer than ")?;
    let limit = number(rest.strip_suffix(" bytes")?)?;
    if name.is_empty() || (limit != 1_048_576 && limit != 67_108_864) {
        return None;
    }
    Some(Printed::Long { name, limit })
}

fn unread_line(line: &str) -> Option<Printed<'_>> {
    let name = line.strip_prefix("cannot read ")?;
    if name.is_empty() {
        return None;
    }
    Some(Printed::CannotRead { name })
}

// Whether the text says why an exchange isn't legal.
fn is_why(why: &str) -> bool {
    match why.rsplit_once(" ") {
        Some((words, field)) => {
            number(field).is_some()
                && matches!(
                    words,
                    "conflict read-write"
                        | "conflict write-read"
                        | "conflict write-write"
                        | "side"
                        | "match-key"
                )
        }
        None => matches!(why, "not-anchored" | "not-unique" | "key-group"),
    }
}

fn step_line(rest: &str) -> Option<Printed<'_>> {
    let (step, fault) = rest.strip_prefix("step ")?.split_once(": C")?;
    let step = number(step)?;
    if let Some(why) = fault.strip_prefix("4 ") {
        return if is_why(why) {
            Some(Printed::Certificate {
                number: 4,
                step,
                why,
            })
        } else {
            None
        };
    }
    Some(Printed::Certificate {
        number: number_in(fault, 1, 3)?,
        step,
        why: "",
    })
}

fn certificate_line(line: &str) -> Option<Printed<'_>> {
    let rest = line.strip_prefix("certificate refused: ")?;
    let number = match rest {
        "not a certificate" => 0,
        "C5" => 5,
        "C6" => 6,
        _ => return step_line(rest),
    };
    Some(Printed::Certificate {
        number,
        step: 0,
        why: "",
    })
}

// Lines of the launcher while it builds.
fn is_building(rest: &str) -> bool {
    (rest.starts_with("the released program ") && rest.ends_with(", so one is built"))
        || rest.starts_with("each proof is checked, ")
        || rest.starts_with("another call is building it, ")
        || (rest.starts_with("built in ") && rest.ends_with(" s"))
        || is_progress(rest)
}

// `N of M crates: NAME, S s`.
fn is_progress(rest: &str) -> bool {
    let Some((done, more)) = rest.split_once(" of ") else {
        return false;
    };
    let Some((all, crate_done)) = more.split_once(" crates: ") else {
        return false;
    };
    number(done).is_some() && number(all).is_some() && crate_done.ends_with(" s")
}

fn is_launcher_fault(rest: &str) -> bool {
    rest == "the build failed"
        || rest.contains(" failed (log: ")
        || (rest.starts_with("nothing can be built in ")
            && rest.ends_with("; XDG_CACHE_HOME may name another place"))
        || (rest.starts_with("the released program ")
            && rest.ends_with(
                ", and the toolchain's command rt isn't on the PATH to build another",
            ))
}

fn launcher_line(line: &str) -> Option<Printed<'_>> {
    let rest = line.strip_prefix("pact: ")?;
    if is_building(rest) {
        Some(Printed::Building)
    } else if is_launcher_fault(rest) {
        Some(Printed::Launcher)
    } else {
        None
    }
}

fn fixed_line(line: &str) -> Option<Printed<'_>> {
    match line {
        "out of memory" => Some(Printed::OutOfMemory),
        "usage: pact COMMAND ARGUMENTS" => Some(Printed::Usage),
        "cannot write" => Some(Printed::CannotWrite),
        _ => None,
    }
}

// The first of two that says something.
fn either<'a>(first: Option<Printed<'a>>, second: Option<Printed<'a>>) -> Option<Printed<'a>> {
    match first {
        Some(said) => Some(said),
        None => second,
    }
}

fn other_line(line: &str) -> Option<Printed<'_>> {
    let of_files = either(unread_line(line), long_line(line));
    let of_others = either(certificate_line(line), launcher_line(line));
    either(either(of_files, of_others), program_line(line))
}

/// What a line says, without its line end, or nothing if `pact` prints no such line.
pub fn read_line(line: &str) -> Option<Printed<'_>> {
    let of_text = either(fixed_line(line), text_line(line));
    let of_parts = either(function_line(line), row_line(line));
    either(either(of_text, of_parts), other_line(line))
}
