//! Accumulators of a loop's body.

ghost use Rattle.std.specs.Prelude.{◌≡◌, ◌&&◌, not};
ghost use Rattle.tac_syntax.specs.Trees.{only};
ghost use Rattle.order_free.specs.Accumulators.{is_accumulator, is_op_of, occurs_otherwise};
ghost use Rattle.order_free.specs.Registers.{Register, is_assigned};
ghost use Rattle.order_free.specs.Views.{registers_of};
ghost use Rattle.order_free.specs.RegistersInRange.{AreRegistersInRange};

use crate::registers::Registers;
use crate::uses::{assigned_in, operands, target};
use pact_record::Op2;
use tac_syntax::{Body, Stmt};

/// What an accumulator computes from its operands. Each operation takes them in any order.
#[derive(Clone, Copy)]
pub enum Accumulation {
    Sum,
    Least,
    Greatest,
}

impl Accumulation {
    fn has_op(self, op: Op2) -> bool
        ensures { result ≡ is_op_of self op }
    {
        match (self, op) {
            (Accumulation::Sum, Op2::AddW)
            | (Accumulation::Least, Op2::Min)
            | (Accumulation::Greatest, Op2::Max) => true,
            _ => false,
        }
    }
}

// The registers that occur in a statement in any other way than as vD in `vD = OP vD vA`.
#[cycle(otherwise)]
fn occur_otherwise(stmt: &Stmt, by: Accumulation) -> Registers
    requires { AreRegistersInRange (only stmt.now) }
    ensures { (r : Register) → registers_of result r ≡ occurs_otherwise by r (only stmt.now) }
{
    match stmt {
        Stmt::If { on, body, other } => {
            let inside = occur_otherwise_in(body, by).union(&occur_otherwise_in(other, by));
            Registers::value(*on).union(&inside)
        }
        Stmt::Repeat { body, .. } | Stmt::Each { body, .. } => occur_otherwise_in(body, by),
        // `vTO = OP vTO vB`: vB occurs otherwise, even if it is vTO
        Stmt::Two { to, op, a, b } if by.has_op(*op) && *to == *a => Registers::value(*b),
        _ => operands(stmt).union(&target(stmt)),
    }
}

// The registers that occur in a body in any other way than as vD in `vD = OP vD vA`.
#[cycle(otherwise)]
fn occur_otherwise_in(body: &Body, by: Accumulation) -> Registers
    requires { AreRegistersInRange body.now }
    ensures { (r : Register) → registers_of result r ≡ occurs_otherwise by r body.now }
{
    let mut found = Registers::none();
    for stmt in body.stmts() {
        found = found.union(&occur_otherwise(stmt, by));
    }
    found
}

/// The registers that a body assigns, except its accumulators.
pub(crate) fn assigned_otherwise(body: &Body) -> Registers
    requires { AreRegistersInRange body.now }
    ensures { (r : Register) → registers_of result r ≡ (is_assigned body.now r && not (is_accumulator body.now r)) }
{
    assigned_in(body)
        .meet(&occur_otherwise_in(body, Accumulation::Sum))
        .meet(&occur_otherwise_in(body, Accumulation::Least))
        .meet(&occur_otherwise_in(body, Accumulation::Greatest))
}
