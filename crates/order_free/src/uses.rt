//! What statements do with registers.

ghost use Rattle.std.specs.Prelude.{◌≡◌};
ghost use Rattle.tac_syntax.specs.Trees.{only, statement_of};
ghost use Rattle.order_free.specs.Registers as specs;
ghost use Rattle.order_free.specs.Registers.{Register};
ghost use Rattle.order_free.specs.Views.{operands_of, registers_of, target_of};
ghost use Rattle.order_free.specs.RegistersInRange.{AreRegistersInRange, IsRecordInRange};

use crate::registers::Registers;
use tac_syntax::{Body, Rec, Stmt};

// The register that a statement reads its record from, if it reads a record register.
fn register_of(from: Rec) -> Registers
    requires { IsRecordInRange from }
    ensures { (r : Register) → registers_of result r ≡ specs.is_register_of from r }
{
    match from {
        Rec::Reg(k) => Registers::record(k),
        _ => Registers::none(),
    }
}

/// The operands of a statement of one line. Those of a `set` are its record register and its value.
pub(crate) fn operands(stmt: &Stmt) -> Registers
    requires { AreRegistersInRange (only stmt.now) }
    ensures { (r : Register) → registers_of result r ≡ operands_of (statement_of stmt.now) r }
{
    match stmt {
        Stmt::Mov { from, .. } => Registers::value(*from),
        Stmt::Get { from, .. } | Stmt::Copy { from, .. } => register_of(*from),
        Stmt::GetAt { from, at, .. } => register_of(*from).union(&Registers::value(*at)),
        Stmt::One { a, .. } => Registers::value(*a),
        Stmt::Two { a, b, .. } => Registers::value(*a).union(&Registers::value(*b)),
        Stmt::Set { to, value, .. } => Registers::record(*to).union(&Registers::value(*value)),
        Stmt::SetAt { to, at, value } => {
            let values = Registers::value(*at).union(&Registers::value(*value));
            Registers::record(*to).union(&values)
        }
        Stmt::Emit { from } => Registers::record(*from),
        _ => Registers::none(),
    }
}

/// The register that a statement of one line assigns. A `set` assigns its record register.
pub(crate) fn target(stmt: &Stmt) -> Registers
    requires { AreRegistersInRange (only stmt.now) }
    ensures { (r : Register) → registers_of result r ≡ target_of (statement_of stmt.now) r }
{
    match stmt {
        Stmt::Int { to, .. }
        | Stmt::Text { to, .. }
        | Stmt::Null { to }
        | Stmt::Mov { to, .. }
        | Stmt::Get { to, .. }
        | Stmt::GetAt { to, .. }
        | Stmt::Key { to, .. }
        | Stmt::One { to, .. }
        | Stmt::Two { to, .. } => Registers::value(*to),
        Stmt::New { to } | Stmt::Copy { to, .. } | Stmt::Set { to, .. } | Stmt::SetAt { to, .. } =>
            Registers::record(*to),
        _ => Registers::none(),
    }
}

// The registers that a statement or one in its blocks assigns.
#[cycle(assigned)]
fn assigned_by(stmt: &Stmt) -> Registers
    requires { AreRegistersInRange (only stmt.now) }
    ensures { (r : Register) → registers_of result r ≡ specs.is_assigned (only stmt.now) r }
{
    match stmt {
        Stmt::If { body, other, .. } => assigned_in(body).union(&assigned_in(other)),
        Stmt::Repeat { body, .. } | Stmt::Each { body, .. } => assigned_in(body),
        _ => target(stmt),
    }
}

/// The registers that a body assigns.
#[cycle(assigned)]
pub(crate) fn assigned_in(body: &Body) -> Registers
    requires { AreRegistersInRange body.now }
    ensures { (r : Register) → registers_of result r ≡ specs.is_assigned body.now r }
{
    let mut found = Registers::none();
    for stmt in body.stmts() {
        found = found.union(&assigned_by(stmt));
    }
    found
}

// Whether a statement reads the first record of a group, or one in its blocks does.
#[cycle(first)]
fn reads_first(stmt: &Stmt) -> bool
    ensures { result ≡ specs.has_first (only stmt.now) }
{
    match stmt {
        Stmt::Get { from, .. } | Stmt::GetAt { from, .. } | Stmt::Copy { from, .. } => {
            matches!(from, Rec::First)
        }
        Stmt::If { body, other, .. } => has_first(body) || has_first(other),
        Stmt::Repeat { body, .. } | Stmt::Each { body, .. } => has_first(body),
        _ => false,
    }
}

/// Whether a statement of a body reads the first record of a group.
#[cycle(first)]
pub(crate) fn has_first(body: &Body) -> bool
    ensures { result ≡ specs.has_first body.now }
{
    for stmt in body.stmts() {
        if reads_first(stmt) {
            return true;
        }
    }
    false
}
