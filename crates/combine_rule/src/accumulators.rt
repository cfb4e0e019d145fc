//! Accumulators of a loop.

ghost use Rattle.std.specs.Prelude.{◌≡◌};
ghost use Rattle.tac_syntax.specs.Trees.{only};
ghost use Rattle.order_free.specs.Accumulators.{occurs_otherwise, is_op_of};
ghost use Rattle.order_free.specs.Registers.{value_at};
ghost use Rattle.combine_rule.specs.Slots.{accumulation_of, is_taken_up};

use crate::uses::is_assigned;
use order_free::Accumulation;
use pact_record::Op2;
use tac_syntax::{Body, Stmt};

fn has_op(by: Accumulation, op: Op2) -> bool
    ensures { result ≡ is_op_of by op }
{
    match (by, op) {
        (Accumulation::Sum, Op2::AddW)
        | (Accumulation::Least, Op2::Min)
        | (Accumulation::Greatest, Op2::Max) => true,
        _ => false,
    }
}

// Whether the value register occurs in a statement in any other way than as vD in `vD = OP vD vA`.
#[cycle(otherwise)]
fn is_used_otherwise(by: Accumulation, stmt: &Stmt, register: u32) -> bool
    ensures { result ≡ occurs_otherwise by (value_at register) (only stmt.now) }
{
    match stmt {
        Stmt::Int { to, .. }
        | Stmt::Text { to, .. }
        | Stmt::Null { to }
        | Stmt::Get { to, .. }
        | Stmt::Key { to, .. } => register == *to,
        Stmt::Mov { to, from } => register == *from || register == *to,
        Stmt::One { to, a, .. } => register == *a || register == *to,
        Stmt::Two { to, op, a, b } => {
            if register == *b {
                true
            } else if register == *to && register == *a {
                !has_op(by, *op)
            } else {
                register == *a || register == *to
            }
        }
        Stmt::GetAt { to, at, .. } => register == *at || register == *to,
        Stmt::Set { value, .. } => register == *value,
        Stmt::SetAt { at, value, .. } => register == *at || register == *value,
        Stmt::If { on, body, other } => {
            register == *on
                || occurs_otherwise(by, body, register)
                || occurs_otherwise(by, other, register)
        }
        Stmt::Repeat { body, .. } | Stmt::Each { body, .. } => occurs_otherwise(by, body, register),
        _ => false,
    }
}

// Whether the value register occurs in a body in any other way than as vD in `vD = OP vD vA`.
#[cycle(otherwise)]
fn occurs_otherwise(by: Accumulation, body: &Body, register: u32) -> bool
    ensures { result ≡ occurs_otherwise by (value_at register) body.now }
{
    for stmt in body.stmts() {
        if is_used_otherwise(by, stmt, register) {
            return true;
        }
    }
    false
}

/// The operation of an accumulator of a loop's body.
pub(crate) fn accumulation_of(body: &Body, register: u32) -> Accumulation
    ensures { result ≡ accumulation_of body.now register }
{
    if !occurs_otherwise(Accumulation::Sum, body, register) {
        Accumulation::Sum
    } else if !occurs_otherwise(Accumulation::Least, body, register) {
        Accumulation::Least
    } else {
        Accumulation::Greatest
    }
}

/// Whether a loop's body assigns the value register, and it is an accumulator.
pub(crate) fn is_taken_up(body: &Body, register: u32) -> bool
    ensures { result ≡ is_taken_up body.now register }
{
    is_assigned(body, register)
        && (!occurs_otherwise(Accumulation::Sum, body, register)
            || !occurs_otherwise(Accumulation::Least, body, register)
            || !occurs_otherwise(Accumulation::Greatest, body, register))
}
