//! What statements do with registers, and how they are numbered.

ghost use Rattle.std.specs.Prelude.{◌≡◌, ◌<◌, ◌^◌};

use crate::lists::Register;
use crate::registers::Registers;
use tac_syntax::{Body, Rec, Stmt};

/// A place in a list as a number of 32 bits. Programs have far fewer operators and functions.
pub fn number_of(at: usize) -> u32
    ensures { at < 2 ^ 32 → result ≡ at }
{
    match u32::try_from(at) {
        Ok(number) => number,
        Err(_) => u32::MAX,
    }
}

/// How many statements there are in a statement, itself included.
pub fn size_of(stmt: &Stmt) -> u32 {
    match stmt {
        Stmt::If { body, other, .. } => body.size().saturating_add(other.size()).saturating_add(1),
        Stmt::Repeat { body, .. } | Stmt::Each { body, .. } => body.size().saturating_add(1),
        _ => 1,
    }
}

/// The number of the first statement inside a block.
pub fn inside(at: u32) -> u32 {
    at.saturating_add(1)
}

/// The number of the first statement of the second body of an `if`.
pub fn inside_other(at: u32, body: &Body) -> u32 {
    inside(at).saturating_add(body.size())
}

/// The number of the statement that follows.
pub fn behind(at: u32, stmt: &Stmt) -> u32 {
    at.saturating_add(size_of(stmt))
}

fn register_of(from: Rec) -> Option<Register> {
    match from {
        Rec::Reg(k) => Some(Register::Record(k)),
        _ => None,
    }
}

/// The registers that a statement reads, without those in its blocks. A `set` doesn't count as reading its record
/// register.
pub fn operands(stmt: &Stmt) -> [Option<Register>; 2] {
    match stmt {
        Stmt::Mov { from, .. } => [Some(Register::Value(*from)), None],
        Stmt::Get { from, .. } | Stmt::Copy { from, .. } => [register_of(*from), None],
        Stmt::GetAt { from, at, .. } => [register_of(*from), Some(Register::Value(*at))],
        Stmt::One { a, .. } => [Some(Register::Value(*a)), None],
        Stmt::Two { a, b, .. } => [Some(Register::Value(*a)), Some(Register::Value(*b))],
        Stmt::Set { value, .. } => [Some(Register::Value(*value)), None],
        Stmt::SetAt { at, value, .. } => [
            Some(Register::Value(*at)),
            Some(Register::Value(*value)),
        ],
        Stmt::Emit { from } => [Some(Register::Record(*from)), None],
        Stmt::If { on, .. } => [Some(Register::Value(*on)), None],
        _ => [None, None],
    }
}

/// The register that a statement assigns. A `set` assigns its record register.
pub fn target(stmt: &Stmt) -> Option<Register> {
    match stmt {
        Stmt::Int { to, .. }
        | Stmt::Text { to, .. }
        | Stmt::Null { to }
        | Stmt::Mov { to, .. }
        | Stmt::Get { to, .. }
        | Stmt::GetAt { to, .. }
        | Stmt::Key { to, .. }
        | Stmt::One { to, .. }
        | Stmt::Two { to, .. } => Some(Register::Value(*to)),
        Stmt::New { to } | Stmt::Copy { to, .. } | Stmt::Set { to, .. } | Stmt::SetAt { to, .. } =>
            { Some(Register::Record(*to)) }
        _ => None,
    }
}

// The registers that a statement or one in its blocks assigns.
#[cycle(assigned)]
pub fn assigned_by(stmt: &Stmt) -> Registers {
    match stmt {
        Stmt::If { body, other, .. } => assigned_in(body).union(&assigned_in(other)),
        Stmt::Repeat { body, .. } | Stmt::Each { body, .. } => assigned_in(body),
        _ => match target(stmt) {
            Some(register) => Registers::only(register),
            None => Registers::none(),
        },
    }
}

/// The registers that a body assigns.
#[cycle(assigned)]
pub fn assigned_in(body: &Body) -> Registers {
    let mut found = Registers::none();
    for stmt in body.stmts() {
        found = found.union(&assigned_by(stmt));
    }
    found
}

/// How many statements of a body assign the register, at any depth. A `set` doesn't count.
#[cycle(times)]
pub fn times_assigned(body: &Body, register: Register) -> u32 {
    let mut count = 0u32;
    for stmt in body.stmts() {
        count = count.saturating_add(times_by(stmt, register));
    }
    count
}

#[cycle(times)]
fn times_by(stmt: &Stmt, register: Register) -> u32 {
    match stmt {
        Stmt::If { body, other, .. } => {
            times_assigned(body, register).saturating_add(times_assigned(other, register))
        }
        Stmt::Repeat { body, .. } | Stmt::Each { body, .. } => times_assigned(body, register),
        Stmt::Set { .. } | Stmt::SetAt { .. } => 0,
        _ => if target(stmt) == Some(register) { 1 } else { 0 },
    }
}
