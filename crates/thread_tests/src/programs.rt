//! Programs, and the rows of their sources, from their texts.

ghost use Rattle.std.specs.Prelude.{IfOk};
ghost use Rattle.pact_operators.specs.Inputs.{AreInputsOf};
ghost use Rattle.pact_operators.specs.Programs.{AreNames, NamesDiffer};

use pact_bag::Inputs;
use pact_load::{ReadAlone, is_source, load_sources, program_of};
use pact_operators::{Op, Program};
use pact_outside::{FailList, MemFeed, MemFiles, NamedFile};
use pact_record::{Bytes, OutOfMemory};
use std::alloc::Global;
use std::test::Fail;

/// The program that this text spells; an error if it spells none.
pub fn program(alloc: Global, text: &[u8]) -> Result<Program, Fail>
    ensures names_differ { IfOk result (λ p. NamesDiffer p.ops) }
    ensures names { IfOk result (λ p. AreNames p.ops) }
{
    match program_of(alloc, b"program", text) {
        Ok(program) => Ok(program),
        Err(_) => Err(Fail::new("no program")),
    }
}

fn push_file(
    alloc: Global,
    files: &mut MemFiles,
    source: &Op,
    text: &str,
) -> Result<(), OutOfMemory> {
    files.push(NamedFile {
        name: Bytes::from_slice(alloc, source.file.bytes())?,
        bytes: Bytes::from_slice(alloc, text.as_bytes())?,
    })?;
    Ok(())
}

// The files of a program's sources, one text for each.
fn files_of(alloc: Global, program: &Program, texts: &[&str]) -> Result<MemFiles, Fail> {
    let mut files = MemFiles::new(alloc);
    for op in program.ops() {
        if is_source(op.kind) {
            let Some(text) = texts.get(files.len()) else {
                return Err(Fail::new("no text"));
            };
            push_file(alloc, &mut files, op, text)?;
        }
    }
    Ok(files)
}

/// The rows of a program's sources, one text for each.
pub fn inputs(alloc: Global, program: &Program, texts: &[&str]) -> Result<Inputs, Fail>
    ensures { IfOk result (AreInputsOf program.now) }
{
    let files = files_of(alloc, program, texts)?;
    let mut feed = MemFeed::new(files, usize::MAX, FailList::new(alloc));
    match load_sources(alloc, &mut feed, program, &ReadAlone { alloc }) {
        Ok(inputs) => Ok(inputs),
        Err(_) => Err(Fail::new("no rows")),
    }
}
