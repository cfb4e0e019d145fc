//! The text that says why a certificate is refused.

ghost use Rattle.std.specs.Prelude.{◌≡◌, ◌++◌, ◌-◌, IfOk, OnOk, codes, decimal, slice_get};
ghost use Rattle.plan_printer.specs.FoundText.{found_text};
ghost use Rattle.swap_certificate.specs.declared.certificates.CertFault.TheVariants.{C3};
ghost use Rattle.swap_certificate.specs.FaultTexts as texts;

use crate::certificates::{CertFault, Certificate, Step};
use pact_record::{Bytes, OutOfMemory};
use plan_printer::{found_text, push_number};
use reorder_pair::{Clash, Found, NotLegal};
use std::alloc::Global;

fn clash_word(kind: Clash) -> &'static [u8]
    ensures { result.now ≡ texts.clash_word kind }
{
    match kind {
        Clash::ReadWrite => b"read-write",
        Clash::WriteRead => b"write-read",
        Clash::WriteWrite => b"write-write",
    }
}

fn conflict_text(alloc: Global, kind: Clash, field: u32) -> Result<Bytes, OutOfMemory>
    ensures { IfOk result (λ text. text ≡ codes "conflict " ++ (texts.clash_word kind ++ (codes " " ++ decimal field))) }
{
    let mut text = Bytes::from_slice(alloc, b"conflict ")?;
    text.extend_from_slice(clash_word(kind))?;
    text.extend_from_slice(b" ")?;
    push_number(alloc, &mut text, u64::from(field))?;
    Ok(text)
}

fn side_text(alloc: Global, field: u32) -> Result<Bytes, OutOfMemory>
    ensures { IfOk result (λ text. text ≡ codes "side " ++ decimal field) }
{
    let mut text = Bytes::from_slice(alloc, b"side ")?;
    push_number(alloc, &mut text, u64::from(field))?;
    Ok(text)
}

fn match_key_text(alloc: Global, field: u32) -> Result<Bytes, OutOfMemory>
    ensures { IfOk result (λ text. text ≡ codes "match-key " ++ decimal field) }
{
    let mut text = Bytes::from_slice(alloc, b"match-key ")?;
    push_number(alloc, &mut text, u64::from(field))?;
    Ok(text)
}

fn why_text(alloc: Global, why: NotLegal) -> Result<Bytes, OutOfMemory>
    ensures { IfOk result (λ text. text ≡ texts.why_text why) }
{
    match why {
        NotLegal::NoPlace => Bytes::from_slice(alloc, b"no-place"),
        NotLegal::Conflict { kind, field } => conflict_text(alloc, kind, field),
        NotLegal::Side { field } => side_text(alloc, field),
        NotLegal::NotAnchored => Bytes::from_slice(alloc, b"not-anchored"),
        NotLegal::KeyGroup => Bytes::from_slice(alloc, b"key-group"),
        NotLegal::MatchKey { field } => match_key_text(alloc, field),
        NotLegal::NotUnique => Bytes::from_slice(alloc, b"not-unique"),
    }
}

// Appends a line with one stated or found value.
fn push_told(text: &mut Bytes, what: &[u8], told: &[u8]) -> Result<(), OutOfMemory>
    ensures { OnOk result (text.new ≡ text.old ++ texts.told_line what.now told.now) }
{
    text.extend_from_slice(what)?;
    text.extend_from_slice(told)?;
    text.extend_from_slice(b"\n")
}

// Appends a line for the upper operator and a line for the lower one. Each begins with the words given for it.
fn push_both(
    alloc: Global,
    text: &mut Bytes,
    of_upper: &[u8],
    upper: &Found,
    of_lower: &[u8],
    lower: &Found,
) -> Result<(), OutOfMemory>
    ensures { OnOk result (text.new ≡ text.old ++ (texts.told_line of_upper.now (found_text upper.now) ++ texts.told_line of_lower.now (found_text lower.now))) }
{
    push_told(text, of_upper, found_text(alloc, upper)?.bytes())?;
    push_told(text, of_lower, found_text(alloc, lower)?.bytes())
}

// Appends a line for each of the two operators of the step with this number, with the sets that the step states. It
// appends nothing if no such step exists. Steps are counted from 1.
fn push_stated(
    alloc: Global,
    text: &mut Bytes,
    steps: &[Step],
    number: u64,
) -> Result<(), OutOfMemory>
    ensures { OnOk result (text.new ≡ text.old ++ texts.stated_lines (slice_get steps.now (number - 1))) }
{
    match steps.get(number.saturating_sub(1) as usize) {
        Some(step) => push_both(
            alloc,
            text,
            b"stated upper ",
            &step.upper,
            b"stated lower ",
            &step.lower,
        ),
        None => Ok(()),
    }
}

fn push_found(
    alloc: Global,
    text: &mut Bytes,
    upper: &Found,
    lower: &Found,
) -> Result<(), OutOfMemory>
    ensures { OnOk result (text.new ≡ text.old ++ texts.both_lines (codes "found") upper.now lower.now) }
{
    push_both(alloc, text, b"found upper ", upper, b"found lower ", lower)
}

// Appends the line that names a step and its fault.
fn push_step(alloc: Global, text: &mut Bytes, step: u64, what: &[u8]) -> Result<(), OutOfMemory>
    ensures { OnOk result (text.new ≡ text.old ++ texts.step_line step what.now) }
{
    text.extend_from_slice(b"step ")?;
    push_number(alloc, text, step)?;
    text.extend_from_slice(b": ")?;
    text.extend_from_slice(what)?;
    text.extend_from_slice(b"\n")
}

fn push_legality(
    alloc: Global,
    text: &mut Bytes,
    step: u64,
    why: NotLegal,
) -> Result<(), OutOfMemory>
    ensures { OnOk result (text.new ≡ text.old ++ texts.step_line step (codes "C4 " ++ texts.why_text why)) }
{
    let mut what = Bytes::from_slice(alloc, b"C4 ")?;
    what.extend_from_slice(why_text(alloc, why)?.bytes())?;
    push_step(alloc, text, step, what.bytes())
}

fn push_other_sets(
    alloc: Global,
    text: &mut Bytes,
    c: &Certificate,
    step: u64,
    upper: &Found,
    lower: &Found,
) -> Result<(), OutOfMemory>
    ensures { OnOk result (text.new ≡ text.old ++ texts.fault_lines c.now (C3 step upper.now lower.now)) }
{
    push_step(alloc, text, step, b"C3")?;
    push_stated(alloc, text, c.steps.steps(), step)?;
    push_found(alloc, text, upper, lower)
}

fn push_versions(
    alloc: Global,
    text: &mut Bytes,
    stated: u32,
    found: u32,
) -> Result<(), OutOfMemory>
    ensures { OnOk result (text.new ≡ text.old ++ (codes "C6\n" ++ (texts.told_line (codes "stated ") (decimal stated) ++ texts.told_line (codes "found ") (decimal found)))) }
{
    let stated = stated.to_string(alloc)?;
    let found = found.to_string(alloc)?;
    text.extend_from_slice(b"C6\n")?;
    push_told(text, b"stated ", stated.as_bytes())?;
    push_told(text, b"found ", found.as_bytes())
}

// Appends the lines of a fault.
fn push_fault(
    alloc: Global,
    text: &mut Bytes,
    c: &Certificate,
    fault: &CertFault,
) -> Result<(), OutOfMemory>
    ensures { OnOk result (text.new ≡ text.old ++ texts.fault_lines c.now fault.now) }
{
    match fault {
        CertFault::C1 { step } => push_step(alloc, text, *step, b"C1"),
        CertFault::C2 { step } => push_step(alloc, text, *step, b"C2"),
        CertFault::C3 { step, upper, lower } => push_other_sets(
            alloc, text, c, *step, upper, lower,
        ),
        CertFault::C4 { step, why } => push_legality(alloc, text, *step, *why),
        CertFault::C5 { found } => {
            text.extend_from_slice(b"C5\n")?;
            push_told(text, b"stated ", c.plan.bytes())?;
            push_told(text, b"found ", found.bytes())
        }
        CertFault::C6 { stated, found } => push_versions(alloc, text, *stated, *found),
        CertFault::Memory => Ok(()),
    }
}

/// The text for a certificate with a fault: one line, and for three faults more lines. For C3 they have what is stated
/// and what is found for the upper and the lower operator. For C5 they have the stated plan line and the line of the
/// plan that was reached. For C6 they have the stated version and the program's. Out of memory is the only error.
pub fn fault_text(alloc: Global, c: &Certificate, fault: &CertFault) -> Result<Bytes, OutOfMemory>
    ensures { IfOk result (λ text. text ≡ texts.fault_text c.now fault.now) }
{
    let mut text = Bytes::from_slice(alloc, b"certificate refused: ")?;
    push_fault(alloc, &mut text, c, fault)?;
    Ok(text)
}

/// The text for input that isn't a certificate.
pub fn not_certificate_text() -> &'static [u8]
    ensures { result.now ≡ texts.not_certificate_text }
{
    b"certificate refused: not a certificate\n"
}
