//! Registers that are assigned and never read.

use crate::lists::{Hint, HintList, Register};
use crate::registers::Registers;
use crate::statements::{behind, inside, inside_other, operands, target};
use pact_record::OutOfMemory;
use tac_syntax::{Body, Stmt};

/// Appends a hint for each register of the function that is assigned and read nowhere, at its first assignment.
pub fn note_unread(list: &mut HintList, function: u32, body: &Body) -> Result<(), OutOfMemory> {
    walk(list, function, body, 0, &read_in(body))?;
    Ok(())
}

// The registers that a statement reads, with those in its blocks. A register that is read only to assign it anew, as in
// `v0 = addw v0 v1`, doesn't count.
#[cycle(read)]
fn read_by(stmt: &Stmt) -> Registers {
    let own = own_reads(stmt);
    match stmt {
        Stmt::If { body, other, .. } => own.union(&read_in(body)).union(&read_in(other)),
        Stmt::Repeat { body, .. } | Stmt::Each { body, .. } => read_in(body),
        _ => own,
    }
}

#[cycle(read)]
fn read_in(body: &Body) -> Registers {
    let mut found = Registers::none();
    for stmt in body.stmts() {
        found = found.union(&read_by(stmt));
    }
    found
}

fn own_reads(stmt: &Stmt) -> Registers {
    let [one, two] = operands(stmt);
    let assigned = target(stmt);
    other_than(one, assigned).union(&other_than(two, assigned))
}

fn other_than(operand: Option<Register>, assigned: Option<Register>) -> Registers {
    match operand {
        Some(register) if operand != assigned => Registers::only(register),
        _ => Registers::none(),
    }
}

// Reports the targets that aren't among the registers, and adds them.
#[cycle(unread)]
fn walk(
    list: &mut HintList,
    function: u32,
    body: &Body,
    first: u32,
    read: &Registers,
) -> Result<Registers, OutOfMemory> {
    let mut known = *read;
    let mut at = first;
    for stmt in body.stmts() {
        known = walk_one(list, function, stmt, at, &known)?;
        at = behind(at, stmt);
    }
    Ok(known)
}

#[cycle(unread)]
fn walk_one(
    list: &mut HintList,
    function: u32,
    stmt: &Stmt,
    at: u32,
    known: &Registers,
) -> Result<Registers, OutOfMemory> {
    match stmt {
        Stmt::If { body, other, .. } => {
            let one = walk(list, function, body, inside(at), known)?;
            walk(list, function, other, inside_other(at, body), &one)
        }
        Stmt::Repeat { body, .. } | Stmt::Each { body, .. } => {
            walk(list, function, body, inside(at), known)
        }
        _ => assign_one(list, function, at, target(stmt), known),
    }
}

fn assign_one(
    list: &mut HintList,
    function: u32,
    statement: u32,
    assigned: Option<Register>,
    known: &Registers,
) -> Result<Registers, OutOfMemory> {
    let Some(register) = assigned else {
        return Ok(*known);
    };
    if !known.has(register) {
        list.push(Hint::NeverRead {
            function,
            statement,
            register,
        })?;
    }
    Ok(known.with(register))
}
