//! Writes certificates as texts.

ghost use Rattle.std.specs.Prelude.{◌≡◌, ◌++◌, IfOk, IsUtf8, ℕ, codes, map};
ghost use Rattle.std.specs.List.{AllByRecursion};
ghost use Rattle.serde_json.specs.Data.{array};
ghost use Rattle.serde_json.specs.View.{items_of, view};
ghost use Rattle.serde_json.specs.Written.{compact_text};
ghost use Rattle.swap_certificate.specs.declared.certificates.Certificate.{Certificate as CertificateData};
ghost use Rattle.swap_certificate.specs.Shape.{IsCertificateText, MayBeStated, MayBeStep, certificate_data, found_data, set_data, step_data};

use crate::certificates::{Certificate, Step};
use pact_record::{Bytes, Fields, MAX_FIELDS, OutOfMemory};
use plan_printer::anchor_word;
use reorder_pair::Found;
use serde_json::{Value, json};
use std::alloc::Global;
use std::str;

fn set_value(alloc: Global, set: Fields) -> Result<Value, OutOfMemory>
    ensures { IfOk result (λ value. view value ≡ set_data set) }
{
    let mut fields = Vec::new(alloc);
    for field in 0..MAX_FIELDS {
        if set.has(field) {
            fields.push(Value::from(field))?;
        }
    }
    Ok(Value::Array(fields))
}

fn found_value(alloc: Global, found: &Found) -> Result<Value, OutOfMemory>
    ensures { IfOk result (λ value. view value ≡ found_data found.now) }
{
    let sets = found.sets;
    let anchor = anchor_word(sets.anchor_left, sets.anchor_right);
    let control = set_value(alloc, sets.control)?;
    let reads = set_value(alloc, sets.reads)?;
    let touched = set_value(alloc, sets.touched)?;
    let writes = set_value(alloc, sets.writes)?;
    json!(in alloc; {
        "anchor": anchor, "control": control, "hi": found.hi, "lo": found.lo, "reads": reads, "touched": touched, "writes": writes
    })
}

// UTF-8 bytes as text.
fn text_of(bytes: &[u8]) -> &str
    requires { IsUtf8 bytes.now }
    ensures { result.now ≡ bytes.now }
{
    match str::from_utf8(bytes) {
        Ok(text) => text,
        Err(_) => unreachable!(),
    }
}

fn step_value(alloc: Global, step: &Step) -> Result<Value, OutOfMemory>
    requires { (most : ℕ) × MayBeStep most step.now }
    ensures { IfOk result (λ value. view value ≡ step_data step.now) }
{
    let at = text_of(step.at.bytes());
    let rule = text_of(step.rule.bytes());
    let lower = found_value(alloc, &step.lower)?;
    let upper = found_value(alloc, &step.upper)?;
    json!(in alloc; {"at": at, "lower": lower, "rule": rule, "upper": upper})
}

fn steps_value(alloc: Global, steps: &[Step]) -> Result<Value, OutOfMemory>
    requires { (most : ℕ) × AllByRecursion (MayBeStep most) steps.now }
    ensures { IfOk result (λ value. view value ≡ array (items_of (map step_data steps.now))) }
{
    let mut values = Vec::new(alloc);
    for step in steps {
        values.push(step_value(alloc, step)?)?;
    }
    Ok(Value::Array(values))
}

fn certificate_value(alloc: Global, c: &Certificate) -> Result<Value, OutOfMemory>
    requires { MayBeStated c.now }
    ensures { IfOk result (λ value. view value ≡ certificate_data c.now) }
{
    let plan = text_of(c.plan.bytes());
    let steps = steps_value(alloc, c.steps.steps())?;
    json!(in alloc; {"plan": plan, "steps": steps, "version": c.version})
}

/// A certificate as text: JSON without blanks, each object's keys in the order of their bytes, and no line end. Its
/// rules, names and plan line are UTF-8 of at most 200, 200 and 4,096 bytes, and its bounds are at most 1,000,000. Out
/// of memory is the only error.
pub fn write_certificate(alloc: Global, c: &Certificate) -> Result<Bytes, OutOfMemory>
    requires stated { MayBeStated c.now }
    ensures text { IfOk result (λ text. text ≡ compact_text (certificate_data c.now)) }
    ensures read_back { IfOk result (λ text. IsCertificateText text c.now) }
    ensures only { IfOk result (λ text. (other : CertificateData) → IsCertificateText text other → other ≡ c.now) }
{
    let value = certificate_value(alloc, c)?;
    Ok(Bytes::from_vec(value.to_vec(alloc)?))
}

/// A certificate as one line: its text and a line end. Reading the line returns the same certificate as reading the
/// text. The limits are those of `write_certificate`. Out of memory is the only error.
pub fn certificate_line(alloc: Global, c: &Certificate) -> Result<Bytes, OutOfMemory>
    requires stated { MayBeStated c.now }
    ensures text { IfOk result (λ text. text ≡ compact_text (certificate_data c.now) ++ codes "\n") }
    ensures read_back { IfOk result (λ text. IsCertificateText text c.now) }
    ensures only { IfOk result (λ text. (other : CertificateData) → IsCertificateText text other → other ≡ c.now) }
{
    let mut text = write_certificate(alloc, c)?;
    text.extend_from_slice(b"\n")?;
    Ok(text)
}
