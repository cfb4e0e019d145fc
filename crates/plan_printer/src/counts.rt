//! The number of records that each source and operator of a plan had in one evaluation, as text.

ghost use Rattle.std.specs.Prelude.{◌≡◌, ◌++◌, IfOk, OnOk, Some, slice_get, true};
ghost use Rattle.plan_trees.specs.Plans.{has};
ghost use Rattle.pact_operators.specs.Programs.{IsPlanOf};
ghost use Rattle.plan_printer.specs.CountsText as texts;

use crate::findings::{push_number, push_set};
use cost_model::rows_at;
use pact_bag::Counts;
use pact_operators::{Op, Plan, Program};
use pact_record::{Bytes, Fields, OutOfMemory};
use std::alloc::Global;

// Appends the number of records that an input emitted.
fn push_given(
    alloc: Global,
    text: &mut Bytes,
    counts: &Counts,
    input: Option<u32>,
) -> Result<(), OutOfMemory>
    ensures { OnOk result (text.new ≡ text.old ++ texts.given_text counts.now input) }
{
    match input {
        Some(input) => {
            text.extend_from_slice(b" ")?;
            push_number(alloc, text, rows_at(counts, input))
        }
        None => Ok(()),
    }
}

// Appends the numbers of records that an operator's inputs emitted.
fn push_taken(
    alloc: Global,
    text: &mut Bytes,
    counts: &Counts,
    first: Option<u32>,
    second: Option<u32>,
) -> Result<(), OutOfMemory>
    ensures { OnOk result (text.new ≡ text.old ++ texts.taken_text counts.now first second) }
{
    if first.is_none() {
        return Ok(());
    }
    text.extend_from_slice(b" in")?;
    push_given(alloc, text, counts, first)?;
    push_given(alloc, text, counts, second)
}

// Appends the line of the source or operator with a number.
fn push_line(
    alloc: Global,
    text: &mut Bytes,
    plan: &Plan,
    counts: &Counts,
    at: u32,
    op: &Op,
) -> Result<(), OutOfMemory>
    requires { has at plan.now ≡ true }
    ensures { OnOk result (text.new ≡ text.old ++ texts.counts_line plan.now counts.now at op.now) }
{
    text.extend_from_slice(op.name.bytes())?;
    push_taken(alloc, text, counts, plan.input(at, 0), plan.input(at, 1))?;
    text.extend_from_slice(b" out ")?;
    push_number(alloc, text, rows_at(counts, at))?;
    text.extend_from_slice(b"\n")
}

/// A line for each source and operator in text order: its name, how many records each of its inputs in the plan
/// emitted, and how many it emitted. A missing count is printed as 0. Out of memory is the only error.
pub fn counts_text(
    alloc: Global,
    program: &Program,
    plan: &Plan,
    counts: &Counts,
) -> Result<Bytes, OutOfMemory>
    requires plan { IsPlanOf program.now.functions program.now.ops plan.now }
    ensures { IfOk result (λ text. text ≡ texts.counts_text program.now plan.now counts.now) }
{
    // this call shows the prover that the plan is small; each source and operator is in it, so its number is small too
    let _root = plan.root();
    let mut text = Bytes::new(alloc);
    for (n, op) in program.ops().iter().enumerate() {
        push_line(alloc, &mut text, plan, counts, n as u32, op)?;
    }
    Ok(text)
}

// Appends the line of an operator whose input is partial groups.
fn push_partials_line(
    alloc: Global,
    text: &mut Bytes,
    counts: &Counts,
    new: u32,
    op: &Op,
) -> Result<(), OutOfMemory>
    ensures { OnOk result (text.new ≡ text.old ++ texts.partials_line counts.now new (Some op.now)) }
{
    text.extend_from_slice(op.name.bytes())?;
    text.extend_from_slice(b" partials ")?;
    push_number(alloc, text, rows_at(counts, new))?;
    text.extend_from_slice(b"\n")
}

// Appends this line for the operator with a number.
fn push_partials_at(
    alloc: Global,
    text: &mut Bytes,
    program: &Program,
    counts: &Counts,
    new: u32,
    at: u32,
) -> Result<(), OutOfMemory>
    ensures { OnOk result (text.new ≡ text.old ++ texts.partials_line counts.now new (slice_get program.now.ops at)) }
{
    match program.ops().get(at as usize) {
        Some(op) => push_partials_line(alloc, text, counts, new, op),
        None => Ok(()),
    }
}

/// Appends a line to the counts for each pair of an operator that made partial groups and the one that merged them: the
/// name of the merging operator, and how many records the other one emitted. Out of memory is the only error.
pub fn push_partials(
    alloc: Global,
    text: &mut Bytes,
    program: &Program,
    counts: &Counts,
    pairs: &[(u32, u32)],
) -> Result<(), OutOfMemory>
    ensures { OnOk result (text.new ≡ text.old ++ texts.partials_text program.now counts.now pairs.now) }
{
    for pair in pairs {
        let (new, at) = *pair;
        push_partials_at(alloc, text, program, counts, new, at)?;
    }
    Ok(())
}

fn push_keeps_line(
    alloc: Global,
    text: &mut Bytes,
    op: &Op,
    fields: Fields,
) -> Result<(), OutOfMemory>
    ensures { OnOk result (text.new ≡ text.old ++ texts.keeps_line (Some op.now) fields) }
{
    text.extend_from_slice(op.name.bytes())?;
    push_set(alloc, text, b" keeps ", fields)?;
    text.extend_from_slice(b"\n")
}

/// Appends a line to the counts for a source or operator from whose records fields were dropped: its name, and the
/// fields that were kept. Out of memory is the only error.
pub fn push_keeps(
    alloc: Global,
    text: &mut Bytes,
    program: &Program,
    at: u32,
    fields: Fields,
) -> Result<(), OutOfMemory>
    ensures { OnOk result (text.new ≡ text.old ++ texts.keeps_line_at program.now at fields) }
{
    match program.ops().get(at as usize) {
        Some(op) => push_keeps_line(alloc, text, op, fields),
        None => Ok(()),
    }
}
