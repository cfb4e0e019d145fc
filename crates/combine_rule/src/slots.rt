//! The accumulators of a loop, and the fields that carry their partial values.

ghost use Rattle.std.specs.Prelude.{◌≡◌, ◌↔◌, ◌≤◌, false, IsTrue, IfOk, length};
ghost use Rattle.std.specs.List.{AllByRecursion};
ghost use Rattle.pact_record.specs.FieldSets.{has_field};
ghost use Rattle.tac_syntax.specs.Trees.{only, code_of};
ghost use Rattle.combine_rule.specs.Combinable as specs;
ghost use Rattle.combine_rule.specs.Combinable.{StartsAsNumber};
ghost use Rattle.combine_rule.specs.Slots.{accumulation_of, accumulators_of, slots_of, spare_fields, spare_register};
ghost use Rattle.combine_rule.specs.Tests.{weight, weights};

use crate::accumulators::{accumulation_of, is_taken_up};
use crate::fields::is_spare;
use crate::uses::{assigns, is_assigned, occurs_in};
use order_free::Accumulation;
use pact_record::{Fields, Keys, OutOfMemory};
use std::alloc::Global;
use tac_syntax::{Body, Stmt, VALUE_REGISTERS};

/// An accumulator's register, its operation, and the field that carries its partial value.
#[derive(Clone, Copy)]
pub struct Slot {
    pub register: u32,
    pub by: Accumulation,
    pub field: u32,
}

/// How many accumulators a loop's body assigns.
pub(crate) fn count_taken(inner: &Body) -> u32
    ensures taken { result ≡ length (accumulators_of inner.now) }
    ensures few { result ≤ 32 }
{
    let mut n = 0;
    for d in 0..VALUE_REGISTERS {
        if is_taken_up(inner, d) {
            n += 1;
        }
    }
    n
}

// How many statements a sender has for an accumulator.
fn weight(by: Accumulation) -> u32
    ensures weight { result ≡ weight by }
    ensures few { result ≤ 2 }
{
    match by {
        Accumulation::Sum => 2,
        _ => 1,
    }
}

/// How many statements a sender has for all accumulators.
pub(crate) fn weights(inner: &Body) -> u32
    ensures weights { result ≡ weights (accumulation_of inner.now) (accumulators_of inner.now) }
    ensures few { result ≤ 64 }
{
    let mut n = 0;
    for d in 0..VALUE_REGISTERS {
        if is_taken_up(inner, d) {
            n += weight(accumulation_of(inner, d));
        }
    }
    n
}

// Always true, since each number in code has 64 bits. This is a call because the prover knows an argument's range, but
// not that of a number read through a reference.
fn is_number(value: i64) -> bool
    ensures { result ≡ specs.is_i64 value }
{
    let _number = value;
    true
}

// Whether a statement leaves a value register a number. `so` says whether it is one before the statement.
fn number_after(stmt: &Stmt, register: u32, so: bool) -> bool
    ensures { result ≡ specs.is_number_behind (only stmt.now) register so }
{
    match stmt {
        Stmt::Int { to, value } => {
            if register == *to {
                is_number(*value)
            } else {
                so
            }
        }
        Stmt::If { body, other, .. } => {
            so && !(is_assigned(body, register) || is_assigned(other, register))
        }
        Stmt::Repeat { body, .. } | Stmt::Each { body, .. } => so && !is_assigned(body, register),
        _ => so && !assigns(stmt, register),
    }
}

// Whether the last assignment of a value register in these statements is a number, outside every block.
fn is_number_behind(stmts: &[Stmt], register: u32) -> bool
    ensures { result ≡ specs.is_number_behind (code_of stmts.now) register false }
{
    let mut so = false;
    for stmt in stmts {
        so = number_after(stmt, register, so);
    }
    so
}

fn starts_as_number(by: Accumulation, front: &[Stmt], register: u32) -> bool
    ensures { IsTrue result ↔ StartsAsNumber by (code_of front.now) register }
{
    match by {
        Accumulation::Sum => is_number_behind(front, register),
        _ => true,
    }
}

/// Whether each sum starts as a number.
pub(crate) fn are_numbers(front: &[Stmt], inner: &Body) -> bool
    ensures { IsTrue result ↔ AllByRecursion (λ d. StartsAsNumber (accumulation_of inner.now d) (code_of front.now) d) (accumulators_of inner.now) }
{
    for d in 0..VALUE_REGISTERS {
        if is_taken_up(inner, d) && !starts_as_number(accumulation_of(inner, d), front, d) {
            return false;
        }
    }
    true
}

/// The least value register that doesn't occur in a body.
pub(crate) fn spare_register(body: &Body) -> Option<u32>
    ensures { result ≡ spare_register body.now }
{
    for d in 0..VALUE_REGISTERS {
        if !occurs_in(body, d) {
            return Some(d);
        }
    }
    None
}

// The accumulators of a loop's body.
fn taken(alloc: Global, inner: &Body) -> Result<Vec<u32>, OutOfMemory>
    ensures { IfOk result (λ v. v.items ≡ accumulators_of inner.now) }
{
    let mut found = Vec::new(alloc);
    for d in 0..VALUE_REGISTERS {
        if is_taken_up(inner, d) {
            found.push(d)?;
        }
    }
    Ok(found)
}

// The fields that can carry partial values.
fn spare(alloc: Global, fields: u32, keys: &Keys, set: Fields) -> Result<Vec<u32>, OutOfMemory>
    ensures { IfOk result (λ v. v.items ≡ spare_fields fields keys.now (has_field set)) }
{
    let mut found = Vec::new(alloc);
    for k in 0..fields {
        if is_spare(k, keys, set) {
            found.push(k)?;
        }
    }
    Ok(found)
}

/// The accumulators of a loop's body, each with the field that carries its partial value.
pub(crate) fn slots(
    alloc: Global,
    inner: &Body,
    fields: u32,
    keys: &Keys,
    set: Fields,
) -> Result<Vec<Slot>, OutOfMemory>
    ensures { IfOk result (λ v. v.items ≡ slots_of inner.now fields keys.now (has_field set)) }
{
    let registers = taken(alloc, inner)?;
    let spare = spare(alloc, fields, keys, set)?;
    let mut found = Vec::new(alloc);
    for n in 0..registers.len() {
        if n >= spare.len() {
            return Ok(found);
        }
        found.push(Slot {
            register: registers[n],
            by: accumulation_of(inner, registers[n]),
            field: spare[n],
        })?;
    }
    Ok(found)
}
