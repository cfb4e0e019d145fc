//! From files to a program and the rows of its sources.

ghost use Rattle.std.specs.Prelude.{◌≤◌, ◌<◌, ◌^◌};
ghost use Rattle.std.specs.List.{AllByRecursion};
ghost use Rattle.pact_load.specs.Answers.{Comes, Decides, RowRefused};
ghost use Rattle.pact_load.specs.Loading as work;

use crate::files::{PROGRAM_LIMIT, SOURCE_LIMIT, Stop, read_file};
use crate::loaded::{Loaded, is_source, push_rows};
use crate::programs::program_of;
use crate::readers::SourceReader;
use crate::refusal_lines::{bad_row, too_long};
use crate::refusals::Refusal;
use csv_source::BadRow;
use pact_bag::{Inputs, Rows};
use pact_operators::{Op, Program};
use pact_outside::Feed;
use pact_record::{Bytes, MAX_FIELDS};
use std::alloc::Global;

/// The bytes of the file of that name, at most `limit` of them. A refusal for any cause but lack of memory names that
/// file.
pub fn load_text<F: Feed>(
    alloc: Global,
    feed: &mut F,
    name: &[u8],
    limit: usize,
) -> Result<Bytes, Refusal>
    requires { limit < 2 ^ 62 }
    ensures { Comes (λ files. work.file files name.now limit) (F.shows feed.old) (F.shows feed.new) result }
{
    let told = Bytes::from_slice(alloc, name)?;
    match read_file(alloc, feed, name, limit) {
        Ok(text) => Ok(text),
        Err(Stop::Memory) => Err(Refusal::OutOfMemory),
        Err(Stop::Fault) => Err(Refusal::CannotRead(told)),
        Err(Stop::Long) => Err(too_long(alloc, name, limit as u64)),
    }
}

/// The program that a file spells.
pub fn load_program<F: Feed>(alloc: Global, feed: &mut F, name: &[u8]) -> Result<Program, Refusal>
    ensures { Comes (λ files. work.program_file files name.now) (F.shows feed.old) (F.shows feed.new) result }
{
    let text = load_text(alloc, feed, name, PROGRAM_LIMIT)?;
    program_of(alloc, name, text.bytes())
}

// The rows of a source, or why its bytes have none.
fn rows_in<D: SourceReader>(
    alloc: Global,
    fields: u32,
    source: &Op,
    bytes: &[u8],
    reader: &D,
) -> Result<Rows, Refusal>
    requires fields { fields ≤ MAX_FIELDS }
    requires columns { AllByRecursion (λ column. column.field < fields) source.now.columns }
    requires reads { D.ready reader.now }
    ensures { Decides (work.rows fields source.now bytes.now) result }
{
    match reader.read(bytes, &source.columns, fields) {
        Ok(rows) => Ok(rows),
        Err(bad) => Err(row_refused(alloc, source.name.bytes(), bad)),
    }
}

fn row_refused(alloc: Global, name: &[u8], bad: BadRow) -> Refusal
    ensures { RowRefused name.now bad result }
{
    match bad {
        BadRow::At { row, column, why } => bad_row(alloc, name, row, column, why),
        BadRow::Memory => Refusal::OutOfMemory,
    }
}

fn load_rows<F: Feed, D: SourceReader>(
    alloc: Global,
    feed: &mut F,
    fields: u32,
    source: &Op,
    reader: &D,
) -> Result<Rows, Refusal>
    requires fields { fields ≤ MAX_FIELDS }
    requires columns { AllByRecursion (λ column. column.field < fields) source.now.columns }
    requires reads { D.ready reader.now }
    ensures { Comes (λ files. work.source_file fields files source.now) (F.shows feed.old) (F.shows feed.new) result }
{
    let bytes = load_text(alloc, feed, source.file.bytes(), SOURCE_LIMIT)?;
    rows_in(alloc, fields, source, bytes.bytes(), reader)
}

/// The rows of each source, one source after the other. `reader` makes the rows of each.
pub fn load_sources<F: Feed, D: SourceReader>(
    alloc: Global,
    feed: &mut F,
    program: &Program,
    reader: &D,
) -> Result<Inputs, Refusal>
    requires reads { D.ready reader.now }
    ensures { Comes (work.sources program.now) (F.shows feed.old) (F.shows feed.new) result }
{
    let fields = program.fields();
    let mut inputs = Inputs::new(alloc);
    for op in program.ops() {
        if is_source(op.kind) {
            let rows = load_rows(alloc, feed, fields, op, reader)?;
            push_rows(&mut inputs, rows)?;
        }
    }
    Ok(inputs)
}

/// A program and the rows of its sources. The program's file is read first, and then those of its sources, in text
/// order.
pub fn load<F: Feed, D: SourceReader>(
    alloc: Global,
    feed: &mut F,
    name: &[u8],
    reader: &D,
) -> Result<Loaded, Refusal>
    requires reads { D.ready reader.now }
    ensures { Comes (λ files. work.loaded files name.now) (F.shows feed.old) (F.shows feed.new) result }
{
    let program = load_program(alloc, feed, name)?;
    let inputs = load_sources(alloc, feed, &program, reader)?;
    Ok(Loaded { program, inputs })
}
