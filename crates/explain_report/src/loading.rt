//! The files of a command, read in the order in which `pact` reads them, and what is said of them.

ghost use Rattle.std.specs.Prelude.{◌≡◌, ◌≢◌, IfOk, None};
ghost use Rattle.pact_load.specs.Answers.{Comes};
ghost use Rattle.pact_load.specs.Loading as work;
ghost use Rattle.pact_load.specs.declared.refusals.Refusal.TheVariants as refusals;
ghost use Rattle.explain_report.specs.Explaining.{ExplainsFile, ExplainsText, Foretells, ForetellsText, IsFaultExplained, Tells, reads_of};
ghost use Rattle.explain_report.specs.TextStages.{checked_of, loaded_of, repeated_of};

use crate::cases::put_case;
use crate::certificates::followed;
use crate::explanations::{Explanation, of_refusal, refusal_line, without_fault};
use crate::files::{SOURCE_LIMIT, TEXT_LIMIT, bytes_in};
use crate::texts::{put_text_fault, spot_of};
use crate::warnings::put_hint;
use explain_declarations::Declared;
use explain_rows::put_file_hints;
use explain_words::Page;
use explain_words::pages::Piece::Say;
use pact_bag::Inputs;
use pact_load::{
    Loaded, ReadAlone, Refusal, is_source, load, load_sources, load_text, program_of, source_named,
    text_refused,
};
use pact_operators::{Plan, Program};
use pact_outside::Feed;
use pact_record::OutOfMemory;
use program_hints::{program_hints, size_hints};
use std::alloc::Global;
use text_lines::TextFault;
use text_marks::{Fault, first_fault};

// ---- refusals

// The explanation of a refusal of the program in that file.
fn refused<F: Feed>(
    alloc: Global,
    feed: &mut F,
    program: &[u8],
    refusal: &Refusal,
) -> Result<Explanation, OutOfMemory>
    ensures told { IfOk result (Tells refusal.now) }
    ensures cause { IfOk result (λ _. refusal.now ≢ refusals.OutOfMemory) }
    ensures spot { IfOk result (λ e. e.spot ≡ None) }
{
    if let Refusal::OutOfMemory = refusal {
        return Err(OutOfMemory);
    }
    let line = refusal_line(alloc, refusal)?;
    let mut page = Page::new(alloc);
    put_case(alloc, &mut page, feed, program, line.bytes())?;
    of_refusal(alloc, refusal, page.bytes())
}

// The explanation of this fault of a program's text.
fn faulty(alloc: Global, name: &[u8], text: &[u8], fault: Fault) -> Result<Explanation, OutOfMemory>
    ensures { IfOk result (IsFaultExplained name.now text.now fault) }
{
    let Fault { line, what } = fault;
    let refusal = text_refused(alloc, name, TextFault::At { line, what });
    if let Refusal::OutOfMemory = refusal {
        return Err(OutOfMemory);
    }
    let spot = spot_of(alloc, text, fault)?;
    let mut page = Page::new(alloc);
    put_text_fault(alloc, &mut page, name, text, what, &spot)?;
    let told = of_refusal(alloc, &refusal, page.bytes())?;
    Ok(Explanation {
        status: told.status,
        text: told.text,
        spot: Some(spot),
    })
}

// ---- without a fault

fn row_counts(alloc: Global, inputs: &Inputs) -> Result<Vec<u64>, OutOfMemory> {
    let mut counts = Vec::new(alloc);
    for source in 0..inputs.len() {
        counts.push(inputs.at(source).len() as u64)?;
    }
    Ok(counts)
}

// Appends what in the files of the sources is seldom meant.
fn put_sources<F: Feed>(
    alloc: Global,
    page: &mut Page,
    feed: &mut F,
    program: &Program,
) -> Result<(), OutOfMemory> {
    for op in program.ops() {
        if is_source(op.kind) {
            let file = op.file.bytes();
            if let Some(bytes) = bytes_in(alloc, feed, file, SOURCE_LIMIT)? {
                put_file_hints(alloc, page, file, bytes.bytes(), &op.columns)?;
            }
        }
    }
    Ok(())
}

// Appends what in the program is seldom meant.
fn put_program<F: Feed>(
    alloc: Global,
    page: &mut Page,
    feed: &mut F,
    file: &[u8],
    program: &Program,
    rows: &[u64],
) -> Result<(), OutOfMemory> {
    let Some(bytes) = bytes_in(alloc, feed, file, TEXT_LIMIT)? else {
        return Ok(());
    };
    let declared = Declared::of(alloc, bytes.bytes())?;
    for hint in program_hints(alloc, program)?.items() {
        put_hint(alloc, page, file, &declared, hint)?;
    }
    for hint in size_hints(alloc, program, rows)?.items() {
        put_hint(alloc, page, file, &declared, hint)?;
    }
    Ok(())
}

// The explanation of a program without a fault, and of its rows.
fn accepted<F: Feed>(
    alloc: Global,
    feed: &mut F,
    file: &[u8],
    program: &Program,
    inputs: Option<&Inputs>,
) -> Result<Explanation, OutOfMemory>
    ensures status { IfOk result (λ e. e.status ≡ 0) }
    ensures spot { IfOk result (λ e. e.spot ≡ None) }
{
    let mut page = Page::new(alloc);
    page.line(&[Say("no fault found")])?;
    let rows = match inputs {
        Some(inputs) => row_counts(alloc, inputs)?,
        None => Vec::new(alloc),
    };
    put_program(alloc, &mut page, feed, file, program, &rows)?;
    if inputs.is_some() {
        put_sources(alloc, &mut page, feed, program)?;
    }
    without_fault(alloc, page.bytes())
}

// ---- what is done with the text of a program

// What `run` reads: the program, and the rows of its sources.
fn load_of<F: Feed>(
    alloc: Global,
    feed: &mut F,
    name: &[u8],
    text: &[u8],
) -> Result<Loaded, Refusal>
    ensures { Comes (λ files. loaded_of files name.now text.now) (F.shows feed.old) (F.shows feed.new) result }
{
    let program = program_of(alloc, name, text)?;
    let inputs = load_sources(alloc, feed, &program, &ReadAlone { alloc })?;
    Ok(Loaded { program, inputs })
}

// What `iterate` reads: the program, and the rows of its sources if one of them has that name.
fn repeat_of<F: Feed>(
    alloc: Global,
    feed: &mut F,
    name: &[u8],
    text: &[u8],
    source: &[u8],
) -> Result<Loaded, Refusal>
    ensures { Comes (λ files. repeated_of files name.now source.now text.now) (F.shows feed.old) (F.shows feed.new) result }
{
    let program = program_of(alloc, name, text)?;
    let _at = source_named(alloc, &program, source)?;
    let inputs = load_sources(alloc, feed, &program, &ReadAlone { alloc })?;
    Ok(Loaded { program, inputs })
}

// The plan that the certificate in the file `other` leads to.
fn check_of<F: Feed>(
    alloc: Global,
    feed: &mut F,
    name: &[u8],
    text: &[u8],
    other: &[u8],
) -> Result<Plan, Refusal>
    ensures { Comes (λ files. checked_of files name.now other.now text.now) (F.shows feed.old) (F.shows feed.new) result }
{
    let program = program_of(alloc, name, text)?;
    let certificate = load_text(alloc, feed, other, TEXT_LIMIT)?;
    followed(alloc, &program, certificate.bytes())
}

// ---- explanations of that

fn explain_sets<F: Feed>(
    alloc: Global,
    feed: &mut F,
    name: &[u8],
    text: &[u8],
) -> Result<Explanation, OutOfMemory>
    ensures told { IfOk result (Foretells (work.program_of name.now text.now)) }
    ensures spot { IfOk result (λ e. e.spot ≡ None) }
{
    match program_of(alloc, name, text) {
        Ok(program) => accepted(alloc, feed, name, &program, None),
        Err(refusal) => refused(alloc, feed, name, &refusal),
    }
}

fn explain_run<F: Feed>(
    alloc: Global,
    feed: &mut F,
    name: &[u8],
    text: &[u8],
) -> Result<Explanation, OutOfMemory>
    ensures told { IfOk result (Foretells (loaded_of (F.shows feed.old).files name.now text.now)) }
    ensures spot { IfOk result (λ e. e.spot ≡ None) }
{
    match load_of(alloc, feed, name, text) {
        Ok(loaded) => accepted(alloc, feed, name, &loaded.program, Some(&loaded.inputs)),
        Err(refusal) => refused(alloc, feed, name, &refusal),
    }
}

fn explain_repeat<F: Feed>(
    alloc: Global,
    feed: &mut F,
    name: &[u8],
    text: &[u8],
    source: &[u8],
) -> Result<Explanation, OutOfMemory>
    ensures told { IfOk result (Foretells (repeated_of (F.shows feed.old).files name.now source.now text.now)) }
    ensures spot { IfOk result (λ e. e.spot ≡ None) }
{
    match repeat_of(alloc, feed, name, text, source) {
        Ok(loaded) => accepted(alloc, feed, name, &loaded.program, Some(&loaded.inputs)),
        Err(refusal) => refused(alloc, feed, name, &refusal),
    }
}

fn explain_check<F: Feed>(
    alloc: Global,
    feed: &mut F,
    name: &[u8],
    text: &[u8],
    other: &[u8],
) -> Result<Explanation, OutOfMemory>
    ensures told { IfOk result (Foretells (checked_of (F.shows feed.old).files name.now other.now text.now)) }
    ensures spot { IfOk result (λ e. e.spot ≡ None) }
{
    match check_of(alloc, feed, name, text, other) {
        Ok(_plan) => without_fault(alloc, b"no fault found\n"),
        Err(refusal) => refused(alloc, feed, name, &refusal),
    }
}

/// What a command does with its program's file.
#[derive(Clone, Copy)]
pub enum Work<'a> {
    /// `sets` reads nothing else.
    Sets,
    /// `run`, `plan` and `cert` read the sources.
    Run,
    /// `iterate` reads the sources if one of them has this name.
    Repeat(&'a [u8]),
    /// `check` reads the certificate in this file.
    Check(&'a [u8]),
}

fn explain_text<F: Feed>(
    alloc: Global,
    feed: &mut F,
    name: &[u8],
    text: &[u8],
    work: Work,
) -> Result<Explanation, OutOfMemory>
    ensures told { IfOk result (ForetellsText (F.shows feed.old).files name.now text.now (reads_of work.entry)) }
    ensures spot { IfOk result (λ e. e.spot ≡ None) }
{
    match work {
        Work::Sets => explain_sets(alloc, feed, name, text),
        Work::Run => explain_run(alloc, feed, name, text),
        Work::Repeat(source) => explain_repeat(alloc, feed, name, text, source),
        Work::Check(other) => explain_check(alloc, feed, name, text, other),
    }
}

fn explain_read<F: Feed>(
    alloc: Global,
    feed: &mut F,
    name: &[u8],
    text: &[u8],
    work: Work,
) -> Result<Explanation, OutOfMemory>
    ensures { IfOk result (ExplainsText (F.shows feed.old).files name.now text.now (reads_of work.entry)) }
{
    let first = first_fault(alloc, text)?;
    match first {
        Some(fault) => faulty(alloc, name, text, fault),
        None => explain_text(alloc, feed, name, text, work),
    }
}

/// Explains what a command does with the program in that file.
pub fn explain_file<F: Feed>(
    alloc: Global,
    feed: &mut F,
    name: &[u8],
    work: Work,
) -> Result<Explanation, OutOfMemory>
    ensures { IfOk result (ExplainsFile (F.shows feed.old).files name.now (reads_of work.entry)) }
{
    match load_text(alloc, feed, name, TEXT_LIMIT) {
        Ok(text) => explain_read(alloc, feed, name, text.bytes(), work),
        Err(refusal) => refused(alloc, feed, name, &refusal),
    }
}

// ---- lines that were printed

/// Why `run` refuses the program in that file, if it does.
pub fn run_refusal<F: Feed>(
    alloc: Global,
    feed: &mut F,
    name: &[u8],
) -> Result<Option<Refusal>, OutOfMemory> {
    match load(alloc, feed, name, &ReadAlone { alloc }) {
        Ok(_) => Ok(None),
        Err(Refusal::OutOfMemory) => Err(OutOfMemory),
        Err(refusal) => Ok(Some(refusal)),
    }
}
