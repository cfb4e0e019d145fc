//! Loops that may take their records in any order.

ghost use Rattle.std.specs.Prelude.{◌≡◌, ◌↔◌, IsTrue};
ghost use Rattle.tac_syntax.specs.Trees.{only};
ghost use Rattle.order_free.specs.OrderFree.{AreLoopsFree, IsLoopFree};
ghost use Rattle.order_free.specs.Views.{registers_of};
ghost use Rattle.order_free.specs.RegistersInRange.{AreRegistersInRange};

use crate::accumulators::assigned_otherwise;
use crate::liveness::{live_at_end, live_at_start, live_before};
use crate::registers::Registers;
use tac_syntax::{Body, Stmt};

// Whether each register that the body of a loop assigns is an accumulator or a local, given the registers that are
// live after the loop.
fn is_loop_free(body: &Body, behind: &Registers) -> bool
    requires { AreRegistersInRange body.now }
    ensures { IsTrue result ↔ IsLoopFree body.now (registers_of behind.now) }
{
    // a register that isn't a local is live before a turn or after the loop
    let lasting = live_at_start(body, &Registers::none()).union(behind);
    assigned_otherwise(body).meet(&lasting).is_empty()
}

// Whether the loops of a statement are free, given the registers that are live after it.
#[cycle(loops)]
fn are_its_loops_free(stmt: &Stmt, behind: &Registers) -> bool
    requires { AreRegistersInRange (only stmt.now) }
    ensures { IsTrue result ↔ AreLoopsFree (only stmt.now) (registers_of behind.now) }
{
    match stmt {
        Stmt::If { body, other, .. } => {
            are_loops_free(body, behind) && are_loops_free(other, behind)
        }
        Stmt::Repeat { body, .. } => are_loops_free(body, &live_at_end(body, behind)),
        Stmt::Each { body, .. } => {
            is_loop_free(body, behind) && are_loops_free(body, &live_at_end(body, behind))
        }
        _ => true,
    }
}

/// Whether the loops of a body are free, given the registers that are live after it.
#[cycle(loops)]
pub(crate) fn are_loops_free(body: &Body, behind: &Registers) -> bool
    requires { AreRegistersInRange body.now }
    ensures { IsTrue result ↔ AreLoopsFree body.now (registers_of behind.now) }
{
    let stmts = body.stmts();
    let mut live = *behind;
    for n in (0..stmts.len()).rev() {
        let stmt = &stmts[n];
        if !are_its_loops_free(stmt, &live) {
            return false;
        }
        live = live_before(stmt, &live);
    }
    true
}
