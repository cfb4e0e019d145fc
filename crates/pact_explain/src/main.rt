//! The program: the command line and the system's files for `explain`, whose text goes to standard output.
#![tactic(auto)]

use explain_report::explain_in_text;
use pact_outside::FileFeed;
use pact_record::{Bytes, OutOfMemory};
use std::alloc::Global;
use std::io::Write;
use std::process::ExitCode;
use std::rt::{Env, Files};
use std::{env, io};

// The command line's words, without the program's own name. If one isn't UTF-8, the only word is one that is no command,
// so that the answer is `pact`'s: the usage, with status 2.
fn read_words<R: Env + AllocGlobal>(rt: &R) -> Result<Vec<String>, OutOfMemory> {
    match env::args(rt) {
        Ok(words) => words.skip(1).collect(rt.alloc()),
        Err(error) if error.kind() == io::ErrorKind::OutOfMemory => Err(OutOfMemory),
        Err(_) => not_utf8(rt.alloc()),
    }
}

fn not_utf8(alloc: Global) -> Result<Vec<String>, OutOfMemory> {
    let mut words = Vec::new(alloc);
    words.push(String::from_str(alloc, "(not UTF-8)")?)?;
    Ok(words)
}

// The exit status, and the text to print.
fn explained<R: Env + Files + AllocGlobal>(rt: &R) -> Result<(u8, Bytes), OutOfMemory> {
    let words = read_words(rt)?;
    let words: Vec<&str> = words.iter().map(|word| word.as_str()).collect(rt.alloc())?;
    let mut feed = FileFeed::new(rt);
    explain_in_text(rt.alloc(), &words, &mut feed)
}

fn write<W: Write>(out: &mut W, bytes: &[u8]) -> io::Result<()> {
    out.write_all(bytes)?;
    out.flush()
}

fn main(rt: HostRuntime) -> ExitCode {
    match explained(&rt) {
        Ok((status, text)) => {
            match write(&mut rt.stdout(), text.bytes()) {
                Ok(()) => ExitCode::from(status),
                Err(_) => ExitCode::from(4),
            }
        }
        Err(_) => {
            // if the line can't be written, only the status reports it
            let _ = eprintln!(rt; "out of memory");
            ExitCode::from(1)
        }
    }
}
