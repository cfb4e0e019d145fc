//! Registers that are read before they are set.

use crate::lists::{Hint, HintList, Register};
use crate::registers::Registers;
use crate::statements::{assigned_in, behind, inside, inside_other, operands, target};
use pact_record::OutOfMemory;
use tac_syntax::{Body, Stmt};

/// Appends a hint for each register of the function that is read where no assignment can come before, at its first such
/// place.
pub fn note_unset(list: &mut HintList, function: u32, body: &Body) -> Result<(), OutOfMemory> {
    walk(list, function, body, 0, &Registers::none())?;
    Ok(())
}

// The registers that may have been assigned after the body, given those before it. A register that was reported counts
// as assigned.
#[cycle(unset)]
fn walk(
    list: &mut HintList,
    function: u32,
    body: &Body,
    first: u32,
    before: &Registers,
) -> Result<Registers, OutOfMemory> {
    let mut set = *before;
    let mut at = first;
    for stmt in body.stmts() {
        set = walk_one(list, function, stmt, at, &set)?;
        at = behind(at, stmt);
    }
    Ok(set)
}

#[cycle(unset)]
fn walk_one(
    list: &mut HintList,
    function: u32,
    stmt: &Stmt,
    at: u32,
    before: &Registers,
) -> Result<Registers, OutOfMemory> {
    let set = read_all(list, function, stmt, at, before)?;
    match stmt {
        Stmt::If { body, other, .. } => {
            let one = walk(list, function, body, inside(at), &set)?;
            let two = walk(list, function, other, inside_other(at, body), &set)?;
            Ok(one.union(&two))
        }
        // what a turn assigns may have been assigned in an earlier turn
        Stmt::Repeat { body, .. } | Stmt::Each { body, .. } => {
            let turned = set.union(&assigned_in(body));
            walk(list, function, body, inside(at), &turned)
        }
        _ => match target(stmt) {
            Some(register) => Ok(set.with(register)),
            None => Ok(set),
        },
    }
}

// Reports the operands that aren't set; they count as set from then on.
fn read_all(
    list: &mut HintList,
    function: u32,
    stmt: &Stmt,
    at: u32,
    before: &Registers,
) -> Result<Registers, OutOfMemory> {
    let [one, two] = operands(stmt);
    let set = read_one(list, function, at, one, before)?;
    read_one(list, function, at, two, &set)
}

fn read_one(
    list: &mut HintList,
    function: u32,
    statement: u32,
    operand: Option<Register>,
    before: &Registers,
) -> Result<Registers, OutOfMemory> {
    let Some(register) = operand else {
        return Ok(*before);
    };
    if !before.has(register) {
        list.push(Hint::ReadBeforeSet {
            function,
            statement,
            register,
        })?;
    }
    Ok(before.with(register))
}
