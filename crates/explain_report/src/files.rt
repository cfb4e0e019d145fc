//! Files that can't be read, or are too long.

ghost use Rattle.std.specs.Prelude.{◌<◌, ◌^◌};

use explain_declarations::Declared;
use explain_words::Page;
use explain_words::faults::status_fault;
use explain_words::pages::Piece::{Number, Quote, Say};
use explain_words::pages::text_of;
use explain_words::places::put_place;
use explain_words::spelling::{around, folder_of, last_name};
use pact_load::{Refusal, load_text};
use pact_outside::Feed;
use pact_record::{Bytes, OutOfMemory};
use std::alloc::Global;

/// The most bytes of a program or a certificate.
pub const TEXT_LIMIT: usize = 1_048_576;

/// The most bytes of a source's file.
pub const SOURCE_LIMIT: usize = 67_108_864;

/// The bytes of a file, if it can be read and isn't too long.
pub fn bytes_in<F: Feed>(
    alloc: Global,
    feed: &mut F,
    name: &[u8],
    limit: usize,
) -> Result<Option<Bytes>, OutOfMemory>
    requires { limit < 2 ^ 62 }
{
    match load_text(alloc, feed, name, limit) {
        Ok(text) => Ok(Some(text)),
        Err(Refusal::OutOfMemory) => Err(OutOfMemory),
        Err(_) => Ok(None),
    }
}

fn is_there<F: Feed>(alloc: Global, feed: &mut F, name: &[u8]) -> Result<bool, OutOfMemory> {
    Ok(bytes_in(alloc, feed, name, SOURCE_LIMIT)?.is_some())
}

/// The bytes of a source's file, or of the file of that name beside the program.
pub fn source_bytes<F: Feed>(
    alloc: Global,
    feed: &mut F,
    program: &[u8],
    file: &[u8],
) -> Result<Option<Bytes>, OutOfMemory> {
    match bytes_in(alloc, feed, file, SOURCE_LIMIT)? {
        Some(bytes) => Ok(Some(bytes)),
        None => {
            let beside = around(alloc, folder_of(program), file, b"")?;
            bytes_in(alloc, feed, beside.bytes(), SOURCE_LIMIT)
        }
    }
}

// ---- names that are nearly right

fn put_if_there<F: Feed>(
    alloc: Global,
    page: &mut Page,
    feed: &mut F,
    name: &[u8],
    other: &[u8],
) -> Result<(), OutOfMemory> {
    if name != other && is_there(alloc, feed, other)? {
        page.line(&[Say("there is a file "), Quote(other)])?;
    }
    Ok(())
}

fn put_near<F: Feed>(
    alloc: Global,
    page: &mut Page,
    feed: &mut F,
    name: &[u8],
) -> Result<(), OutOfMemory> {
    let mut small = Bytes::new(alloc);
    for byte in name {
        small.push(byte.to_ascii_lowercase())?;
    }
    put_if_there(alloc, page, feed, name, small.bytes())?;
    for end in [".pact", ".csv", ".json"] {
        let longer = around(alloc, b"", name, end.as_bytes())?;
        put_if_there(alloc, page, feed, name, longer.bytes())?;
    }
    put_if_there(alloc, page, feed, name, last_name(name))?;
    let above = around(alloc, b"../", name, b"")?;
    put_if_there(alloc, page, feed, name, above.bytes())
}

// Where the program names the file, and whether the file is beside the program.
fn put_who_reads<F: Feed>(
    alloc: Global,
    page: &mut Page,
    feed: &mut F,
    program: &[u8],
    name: &[u8],
) -> Result<(), OutOfMemory> {
    let Some(bytes) = bytes_in(alloc, feed, program, TEXT_LIMIT)? else {
        return Ok(());
    };
    let declared = Declared::of(alloc, bytes.bytes())?;
    for line in &declared.lines {
        let is_source = declared.kind(line) == b"source".as_slice();
        if is_source && line.word(declared.text, 2) == name {
            page.line(&[Say("it is named here:")])?;
            put_place(page, program, declared.text, &line.part(2))?;
        }
    }
    let folder = folder_of(program);
    let beside = around(alloc, folder, name, b"")?;
    if !folder.is_empty() && is_there(alloc, feed, beside.bytes())? {
        page.put(beside.bytes())?;
        page.put(b" exists: run pact in the folder ")?;
        page.put(folder)?;
        page.put(b", or write that name in the program\n")?;
    }
    Ok(())
}

/// Appends that a file can't be read, the files that have nearly its name, and where it is named.
pub fn put_unread<F: Feed>(
    alloc: Global,
    page: &mut Page,
    feed: &mut F,
    program: &[u8],
    name: &[u8],
) -> Result<(), OutOfMemory> {
    page.line(&[Say(status_fault(3))])?;
    page.line(&[
        Say("there is no file "),
        Quote(name),
        Say(" that pact can read; file names begin at the folder in which pact runs"),
    ])?;
    put_near(alloc, page, feed, name)?;
    put_who_reads(alloc, page, feed, program, name)?;
    if text_of(name) == "-" {
        page.line(&[Say(
            "pact can't read a program from standard input: give the name of its file",
        )])?;
    }
    page.line(&[Say("docs/faults.md, \"Status 3\"")])
}

/// Appends that a file is too long.
pub fn put_long<F: Feed>(
    alloc: Global,
    page: &mut Page,
    feed: &mut F,
    program: &[u8],
    name: &[u8],
    limit: u64,
) -> Result<(), OutOfMemory> {
    page.line(&[Say(status_fault(8))])?;
    page.line(&[
        Say("at most "),
        Number(limit),
        Say(
            " bytes are allowed: delete comments of a program, or columns and rows of a source, or split a source's file",
        ),
    ])?;
    put_who_reads(alloc, page, feed, program, name)?;
    page.line(&[Say("docs/faults.md, \"Status 8\"")])
}
