//! Least values of registers that are always Null.

use crate::lists::{Hint, HintList, Register};
use crate::registers::Registers;
use crate::statements::{behind, inside, inside_other, target};
use pact_record::{Op2, OutOfMemory};
use tac_syntax::{Body, Stmt};

/// Appends a hint for each value register that a `min` reads and that is always Null: the `min` is then Null too. A
/// register that a hint of the function already reports isn't reported again.
pub fn note_least(list: &mut HintList, function: u32, body: &Body) -> Result<(), OutOfMemory> {
    walk(list, function, body, 0, &given_in(body))
}

// The registers that a statement may give a value other than Null. `v0 = min v0 v1` leaves a Null as it is.
#[cycle(given)]
fn given_by(stmt: &Stmt) -> Registers {
    match stmt {
        Stmt::If { body, other, .. } => given_in(body).union(&given_in(other)),
        Stmt::Repeat { body, .. } | Stmt::Each { body, .. } => given_in(body),
        _ => given_by_line(stmt),
    }
}

#[cycle(given)]
fn given_in(body: &Body) -> Registers {
    let mut found = Registers::none();
    for stmt in body.stmts() {
        found = found.union(&given_by(stmt));
    }
    found
}

fn given_by_line(stmt: &Stmt) -> Registers {
    match stmt {
        Stmt::Null { .. } => Registers::none(),
        Stmt::Two {
            to,
            op: Op2::Min,
            a,
            b,
        } if *to == *a || *to == *b => Registers::none(),
        _ => match target(stmt) {
            Some(register) => Registers::only(register),
            None => Registers::none(),
        },
    }
}

#[cycle(least)]
fn walk(
    list: &mut HintList,
    function: u32,
    body: &Body,
    first: u32,
    given: &Registers,
) -> Result<(), OutOfMemory> {
    let mut at = first;
    for stmt in body.stmts() {
        walk_one(list, function, stmt, at, given)?;
        at = behind(at, stmt);
    }
    Ok(())
}

#[cycle(least)]
fn walk_one(
    list: &mut HintList,
    function: u32,
    stmt: &Stmt,
    at: u32,
    given: &Registers,
) -> Result<(), OutOfMemory> {
    match stmt {
        Stmt::If { body, other, .. } => {
            walk(list, function, body, inside(at), given)?;
            walk(list, function, other, inside_other(at, body), given)
        }
        Stmt::Repeat { body, .. } | Stmt::Each { body, .. } => {
            walk(list, function, body, inside(at), given)
        }
        Stmt::Two {
            op: Op2::Min,
            a,
            b,
            ..
        } => {
            note_operand(list, function, at, *a, given)?;
            note_operand(list, function, at, *b, given)
        }
        _ => Ok(()),
    }
}

fn note_operand(
    list: &mut HintList,
    function: u32,
    statement: u32,
    operand: u32,
    given: &Registers,
) -> Result<(), OutOfMemory> {
    let register = Register::Value(operand);
    if given.has(register) || is_reported(list.items(), function, register) {
        return Ok(());
    }
    list.push(Hint::ReadBeforeSet {
        function,
        statement,
        register,
    })?;
    Ok(())
}

fn is_reported(hints: &[Hint], function: u32, register: Register) -> bool {
    for hint in hints {
        if is_about(hint, function, register) {
            return true;
        }
    }
    false
}

fn is_about(hint: &Hint, function: u32, register: Register) -> bool {
    match hint {
        Hint::ReadBeforeSet {
            function: caller,
            register: read,
            ..
        } => *caller == function && *read == register,
        _ => false,
    }
}
