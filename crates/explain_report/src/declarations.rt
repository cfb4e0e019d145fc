//! Declarations that break a rule.

use crate::trials::{makes_program, put_mended};
use explain_declarations::find_rule;
use explain_words::Page;
use explain_words::faults::program_rule;
use explain_words::pages::Piece::{Number, Say};
use explain_words::places::put_place;
use pact_record::OutOfMemory;
use std::alloc::Global;

/// Appends which declaration breaks a rule, and what may be there instead.
pub fn put_program_fault(
    alloc: Global,
    page: &mut Page,
    file: &[u8],
    text: &[u8],
    name: &str,
    code: u32,
) -> Result<(), OutOfMemory> {
    if let Some(found) = find_rule(alloc, text, name.as_bytes(), code)? {
        put_place(page, file, text, &found.there)?;
        page.line(&[Say(program_rule(code))])?;
        page.put(found.why.bytes())?;
        for word in &found.instead {
            if code != 11 && makes_program(alloc, text, &found.there, word.bytes())? {
                put_mended(alloc, page, text, &found.there, word.bytes())?;
                break;
            }
        }
    }
    page.line(&[
        Say("docs/faults.md, \"P"),
        Number(u64::from(code)),
        Say("\""),
    ])
}
