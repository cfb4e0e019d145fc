//! Reads certificates from texts.

ghost use Rattle.std.specs.Prelude.{◌≡◌, ◌≤◌, Bool, ℕ, IfNone, IfOk, IfSome, List, map, ◌++◌, ◌∷◌, [], OnOk};
ghost use Rattle.std.specs.List.{AllByRecursion};
ghost use Rattle.pact_record.specs.declared.records.TheConstants.{MAX_FIELDS};
ghost use Rattle.tac_syntax.specs.Versions.{IsVersion};
ghost use Rattle.pact_record.specs.Limits.{word_limit};
ghost use Rattle.plan_printer.specs.FoundText.{anchor_word, rising_fields};
ghost use Rattle.reorder_pair.specs.declared.finding.Found.{Found as FoundData};
ghost use Rattle.serde_json.specs.Data.{Data, Members, array, member, string};
ghost use Rattle.serde_json.specs.View.{items_of, members_view, view};
ghost use Rattle.swap_certificate.specs.declared.certificates.Certificate.{Certificate as CertificateData};
ghost use Rattle.swap_certificate.specs.declared.certificates.NotCertificate.TheVariants.{Shape};
ghost use Rattle.swap_certificate.specs.declared.certificates.Step.{Step as StepData};
ghost use Rattle.swap_certificate.specs.RisingData.{RisesFrom};
ghost use Rattle.swap_certificate.specs.Shape.{IsCertificateText, IsSet, IsShaped, IsShortText, MayBeFound, MayBeStep, certificate_with, found_data, found_with, set_data, step_data, step_with, whole};

use crate::certificates::{Certificate, MAX_LINE, NotCertificate, Step, Steps};
use emit_bounds::MANY;
use pact_record::{Bytes, Fields, MAX_WORD, OutOfMemory, Word};
use reorder_pair::Found;
use serde_json::Value;
use std::alloc::Global;
use std::collections::btree_map::Iter;
use tac_flow::Sets;
use tac_syntax::field_limit;

// ---- objects, whose members come in the order of their keys

// The next member's value, if its key is `key`.
fn next_named<'a>(members: &mut Iter<'a, String, Value>, key: &str) -> Option<&'a Value>
    ensures some { IfSome result (λ value. members_view members.old ≡ member key.now (view value.now) (members_view members.new)) }
    ensures none { IfNone result ((d : Data) (rest : Members) → members_view members.old ≡ member key.now d rest → ⊥) }
{
    let (name, value) = members.next()?;
    if name.as_str() != key {
        return None;
    }
    Some(value)
}

#[derive(Clone, Copy)]
struct FoundParts<'a> {
    anchor: &'a Value,
    control: &'a Value,
    hi: &'a Value,
    lo: &'a Value,
    reads: &'a Value,
    touched: &'a Value,
    writes: &'a Value,
}

fn found_parts(value: &Value) -> Option<FoundParts<'_>>
    ensures some { IfSome result
        (λ p. view value.now ≡ found_with (view p.anchor.now) (view p.control.now) (view p.hi.now) (view p.lo.now) (view p.reads.now) (view p.touched.now) (view p.writes.now)) }
    ensures none { IfNone result ((anchor control hi lo reads touched writes : Data)
        → view value.now ≡ found_with anchor control hi lo reads touched writes → ⊥) }
{
    let mut members = value.as_object()?.iter();
    let anchor = next_named(&mut members, "anchor")?;
    let control = next_named(&mut members, "control")?;
    let hi = next_named(&mut members, "hi")?;
    let lo = next_named(&mut members, "lo")?;
    let reads = next_named(&mut members, "reads")?;
    let touched = next_named(&mut members, "touched")?;
    let writes = next_named(&mut members, "writes")?;
    if members.next().is_some() {
        return None;
    }
    Some(FoundParts {
        anchor,
        control,
        hi,
        lo,
        reads,
        touched,
        writes,
    })
}

#[derive(Clone, Copy)]
struct StepParts<'a> {
    at: &'a Value,
    lower: &'a Value,
    rule: &'a Value,
    upper: &'a Value,
}

fn step_parts(value: &Value) -> Option<StepParts<'_>>
    ensures some { IfSome result (λ p. view value.now ≡ step_with (view p.at.now) (view p.lower.now) (view p.rule.now) (view p.upper.now)) }
    ensures none { IfNone result ((at lower rule upper : Data) → view value.now ≡ step_with at lower rule upper → ⊥) }
{
    let mut members = value.as_object()?.iter();
    let at = next_named(&mut members, "at")?;
    let lower = next_named(&mut members, "lower")?;
    let rule = next_named(&mut members, "rule")?;
    let upper = next_named(&mut members, "upper")?;
    if members.next().is_some() {
        return None;
    }
    Some(StepParts {
        at,
        lower,
        rule,
        upper,
    })
}

#[derive(Clone, Copy)]
struct CertificateParts<'a> {
    plan: &'a Value,
    steps: &'a Value,
    version: &'a Value,
}

fn certificate_parts(value: &Value) -> Option<CertificateParts<'_>>
    ensures some { IfSome result (λ p. view value.now ≡ certificate_with (view p.plan.now) (view p.steps.now) (view p.version.now)) }
    ensures none { IfNone result ((plan steps version : Data) → view value.now ≡ certificate_with plan steps version → ⊥) }
{
    let mut members = value.as_object()?.iter();
    let plan = next_named(&mut members, "plan")?;
    let steps = next_named(&mut members, "steps")?;
    let version = next_named(&mut members, "version")?;
    if members.next().is_some() {
        return None;
    }
    Some(CertificateParts {
        plan,
        steps,
        version,
    })
}

// ---- numbers, texts and sets

// A whole number up to a limit. JSON's `1.0`, `1e0` and `-0` don't count as whole numbers.
fn read_whole(value: &Value, limit: u32) -> Option<u32>
    ensures some { IfSome result (λ n. (n ≤ limit) × (view value.now ≡ whole n)) }
    ensures none { IfNone result ((n : ℕ) → n ≤ limit → view value.now ≡ whole n → ⊥) }
{
    let n = value.as_u64()?;
    if n > limit as u64 {
        return None;
    }
    Some(n as u32)
}

// A text of at most `limit` bytes.
fn read_text(value: &Value, limit: usize) -> Option<&str>
    ensures some { IfSome result (λ text. IsShortText limit text.now × (view value.now ≡ string text.now)) }
    ensures none { IfNone result ((text : List ℕ) → IsShortText limit text → view value.now ≡ string text → ⊥) }
{
    let text = value.as_str()?;
    if text.len() > limit {
        return None;
    }
    Some(text)
}

// The sides that an anchor's word names.
fn sides_of(word: &str) -> Option<(bool, bool)>
    ensures some { IfSome result (λ sides. word.now ≡ anchor_word sides.0 sides.1) }
    ensures none { IfNone result ((left right : Bool) → word.now ≡ anchor_word left right → ⊥) }
{
    if word == "both" {
        return Some((true, true));
    }
    if word == "left" {
        return Some((true, false));
    }
    if word == "right" {
        return Some((false, true));
    }
    if word == "none" {
        return Some((false, false));
    }
    None
}

fn read_sides(value: &Value) -> Option<(bool, bool)>
    ensures some { IfSome result (λ sides. view value.now ≡ string (anchor_word sides.0 sides.1)) }
    ensures none { IfNone result ((left right : Bool) → view value.now ≡ string (anchor_word left right) → ⊥) }
{
    sides_of(value.as_str()?)
}

// The set whose fields are these values, which must be below the limit and strictly rising.
fn rising_set(limit: u32, items: &[Value]) -> Option<Fields>
    requires limit { (1 ≤ limit) × (limit ≤ MAX_FIELDS) }
    ensures set { IfSome result (λ set. IsSet limit set) }
    ensures some { IfSome result (λ set. map view items.now ≡ map whole (rising_fields set MAX_FIELDS)) }
    ensures none { IfNone result (RisesFrom limit 0 (map view items.now) → ⊥) }
{
    let mut set = Fields::empty();
    let mut least = 0;
    for item in items {
        let field = read_whole(item, limit - 1)?;
        if field < least {
            return None;
        }
        set = set.with(field);
        least = field + 1;
    }
    Some(set)
}

fn read_set(limit: u32, value: &Value) -> Option<Fields>
    requires limit { (1 ≤ limit) × (limit ≤ MAX_FIELDS) }
    ensures some { IfSome result (λ set. IsSet limit set × (view value.now ≡ set_data set)) }
    ensures none { IfNone result ((set : ℕ) → IsSet limit set → view value.now ≡ set_data set → ⊥) }
{
    rising_set(limit, value.as_array()?)
}

// ---- the sets and bounds stated for an operator

fn read_found(limit: u32, value: &Value) -> Option<Found>
    requires limit { (1 ≤ limit) × (limit ≤ MAX_FIELDS) }
    ensures some { IfSome result (λ f. MayBeFound limit f × (view value.now ≡ found_data f)) }
    ensures none { IfNone result ((f : FoundData) → MayBeFound limit f → view value.now ≡ found_data f → ⊥) }
{
    let parts = found_parts(value)?;
    let (anchor_left, anchor_right) = read_sides(parts.anchor)?;
    let control = read_set(limit, parts.control)?;
    let hi = read_whole(parts.hi, MANY)?;
    let lo = read_whole(parts.lo, MANY)?;
    let reads = read_set(limit, parts.reads)?;
    let touched = read_set(limit, parts.touched)?;
    let writes = read_set(limit, parts.writes)?;
    let sets = Sets {
        reads,
        writes,
        control,
        touched,
        anchor_left,
        anchor_right,
    };
    Some(Found { sets, lo, hi })
}

// ---- steps

fn read_word(alloc: Global, value: &Value) -> Result<Word, NotCertificate>
    ensures some { IfOk result (λ word. IsShortText word_limit word × (view value.now ≡ string word)) }
    ensures none { result ≡ Err Shape → (text : List ℕ) → IsShortText word_limit text → view value.now ≡ string text → ⊥ }
{
    let Some(text) = read_text(value, MAX_WORD) else {
        return Err(NotCertificate::Shape);
    };
    Ok(Word::from_bytes(alloc, text.as_bytes())?)
}

fn read_step(alloc: Global, limit: u32, value: &Value) -> Result<Step, NotCertificate>
    requires limit { (1 ≤ limit) × (limit ≤ MAX_FIELDS) }
    ensures some { IfOk result (λ s. MayBeStep limit s × (view value.now ≡ step_data s)) }
    ensures none { result ≡ Err Shape → (s : StepData) → MayBeStep limit s → view value.now ≡ step_data s → ⊥ }
{
    let Some(parts) = step_parts(value) else {
        return Err(NotCertificate::Shape);
    };
    let Some(lower) = read_found(limit, parts.lower) else {
        return Err(NotCertificate::Shape);
    };
    let Some(upper) = read_found(limit, parts.upper) else {
        return Err(NotCertificate::Shape);
    };
    let at = read_word(alloc, parts.at)?;
    let rule = read_word(alloc, parts.rule)?;
    Ok(Step {
        rule,
        at,
        upper,
        lower,
    })
}

// This call adds to the contract of `push` that out of memory is its only error.
fn push_step(steps: &mut Steps, step: Step) -> Result<(), OutOfMemory>
    ensures { OnOk result (steps.new ≡ steps.old ++ step ∷ []) }
{
    steps.push(step)?;
    Ok(())
}

fn steps_of(alloc: Global, limit: u32, items: &[Value]) -> Result<Steps, NotCertificate>
    requires limit { (1 ≤ limit) × (limit ≤ MAX_FIELDS) }
    ensures stated { IfOk result (λ steps. AllByRecursion (MayBeStep limit) steps) }
    ensures some { IfOk result (λ steps. map view items.now ≡ map step_data steps) }
    ensures none { result ≡ Err Shape → (steps : List StepData) → AllByRecursion (MayBeStep limit) steps → map view items.now ≡ map step_data steps → ⊥ }
{
    let mut steps = Steps::new(alloc);
    for item in items {
        let step = read_step(alloc, limit, item)?;
        push_step(&mut steps, step)?;
    }
    Ok(steps)
}

fn read_steps(alloc: Global, limit: u32, value: &Value) -> Result<Steps, NotCertificate>
    requires limit { (1 ≤ limit) × (limit ≤ MAX_FIELDS) }
    ensures some { IfOk result (λ steps. AllByRecursion (MayBeStep limit) steps × (view value.now ≡ array (items_of (map step_data steps)))) }
    ensures none { result ≡ Err Shape → (steps : List StepData) → AllByRecursion (MayBeStep limit) steps
        → view value.now ≡ array (items_of (map step_data steps)) → ⊥ }
{
    let Some(items) = value.as_array() else {
        return Err(NotCertificate::Shape);
    };
    steps_of(alloc, limit, items)
}

// ---- certificates

// One of the two versions.
fn read_version(value: &Value) -> Option<u32>
    ensures some { IfSome result (λ version. IsVersion version × (view value.now ≡ whole version)) }
    ensures none { IfNone result ((version : ℕ) → IsVersion version → view value.now ≡ whole version → ⊥) }
{
    let version = read_whole(value, 2)?;
    if version == 0 {
        return None;
    }
    Some(version)
}

fn shaped(alloc: Global, value: &Value) -> Result<Certificate, NotCertificate>
    ensures some { IfOk result (λ c. IsShaped c (view value.now)) }
    ensures none { result ≡ Err Shape → (c : CertificateData) → IsShaped c (view value.now) → ⊥ }
{
    let Some(parts) = certificate_parts(value) else {
        return Err(NotCertificate::Shape);
    };
    let Some(version) = read_version(parts.version) else {
        return Err(NotCertificate::Shape);
    };
    let Some(line) = read_text(parts.plan, MAX_LINE) else {
        return Err(NotCertificate::Shape);
    };
    let steps = read_steps(alloc, field_limit(version), parts.steps)?;
    let plan = Bytes::from_slice(alloc, line.as_bytes())?;
    Ok(Certificate {
        version,
        steps,
        plan,
    })
}

/// Reads a certificate from a text. The text is JSON of the shape that `write_certificate` writes; blanks are allowed,
/// and an object's keys may be in any order. If a key comes twice, its last value counts.
pub fn read_certificate(alloc: Global, bytes: &[u8]) -> Result<Certificate, NotCertificate>
    ensures certificate { IfOk result (IsCertificateText bytes.now) }
    ensures only { IfOk result (λ c. (other : CertificateData) → IsCertificateText bytes.now other → other ≡ c) }
    ensures shape { result ≡ Err Shape → (c : CertificateData) → IsCertificateText bytes.now c → ⊥ }
{
    match Value::from_slice(alloc, bytes) {
        Ok(value) => shaped(alloc, &value),
        Err(error) => {
            if error.is_memory() {
                return Err(NotCertificate::Memory);
            }
            Err(NotCertificate::Shape)
        }
    }
}
