//! Which registers are live.

ghost use Rattle.std.specs.Prelude.{◌≡◌, ◌||◌};
ghost use Rattle.tac_syntax.specs.Trees.{only};
ghost use Rattle.order_free.specs.Liveness.{is_live};
ghost use Rattle.order_free.specs.Registers.{Register};
ghost use Rattle.order_free.specs.Views.{registers_of};
ghost use Rattle.order_free.specs.RegistersInRange.{AreRegistersInRange};

use crate::registers::Registers;
use crate::uses::{operands, target};
use tac_syntax::{Body, Stmt};

/// The registers that are live before a statement, given those that are live after it.
#[cycle(live)]
pub(crate) fn live_before(stmt: &Stmt, behind: &Registers) -> Registers
    requires { AreRegistersInRange (only stmt.now) }
    ensures { (r : Register) → registers_of result r ≡ is_live (only stmt.now) r (registers_of behind.now r) }
{
    match stmt {
        Stmt::If { on, body, other } => {
            let either = live_at_start(body, behind).union(&live_at_start(other, behind));
            Registers::value(*on).union(&either)
        }
        Stmt::Repeat { body, .. } => live_at_start(body, behind),
        Stmt::Each { body, .. } => behind.union(&live_at_start(body, behind)),
        _ => operands(stmt).union(&behind.minus(&target(stmt))),
    }
}

/// The registers that are live before the statements of a body, given those that are live after them.
#[cycle(live)]
pub(crate) fn live_at_start(body: &Body, behind: &Registers) -> Registers
    requires { AreRegistersInRange body.now }
    ensures { (r : Register) → registers_of result r ≡ is_live body.now r (registers_of behind.now r) }
{
    let stmts = body.stmts();
    let mut live = *behind;
    for n in (0..stmts.len()).rev() {
        live = live_before(&stmts[n], &live);
    }
    live
}

/// The registers that are live at the end of each turn of a loop, given those that are live after the loop.
pub(crate) fn live_at_end(body: &Body, behind: &Registers) -> Registers
    requires { AreRegistersInRange body.now }
    ensures { (r : Register) → registers_of result r ≡ (registers_of behind.now r || is_live body.now r (registers_of behind.now r)) }
{
    behind.union(&live_at_start(body, behind))
}
