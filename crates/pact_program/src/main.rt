//! The program: the command line, the system's files and the standard streams for `pact_main`, on the system's threads.
#![tactic(auto)]

use pact_outside::{FileFeed, StreamSink};
use pact_record::OutOfMemory;
use pact_top::pact_main;
use std::process::ExitCode;
use std::rt::{Env, Files};
use std::sync::Wait;
use std::thread::Threads;
use std::{env, io};
use worker_gate::OpenGate;

// The command line's words, without the program's own name. If the words aren't valid text, there are none.
fn read_words<R: Env + AllocGlobal>(rt: &R) -> Result<Vec<String>, OutOfMemory> {
    match env::args(rt) {
        Ok(words) => words.skip(1).collect(rt.alloc()),
        Err(error) if error.kind() == io::ErrorKind::OutOfMemory => Err(OutOfMemory),
        Err(_) => Ok(Vec::new(rt.alloc())),
    }
}

fn run<R: Env + Files + AllocGlobal + Threads + Wait + Sync>(
    rt: &R,
    out: io::Stdout,
    err: io::Stderr,
) -> Result<u8, OutOfMemory> {
    let words = read_words(rt)?;
    let words: Vec<&str> = words.iter().map(|word| word.as_str()).collect(rt.alloc())?;
    let mut feed = FileFeed::new(rt);
    let mut out = StreamSink::new(out);
    let mut err = StreamSink::new(err);
    Ok(pact_main(
        rt,
        rt.alloc(),
        &words,
        &mut feed,
        &mut out,
        &mut err,
        &OpenGate,
    ))
}

fn main(rt: HostRuntime) -> ExitCode {
    match run(&rt, rt.stdout(), rt.stderr()) {
        Ok(status) => ExitCode::from(status),
        Err(_) => {
            // if the line can't be written, only the status reports it
            let _ = eprintln!(rt; "out of memory");
            ExitCode::from(1)
        }
    }
}
