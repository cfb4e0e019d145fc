//! The end of a call. No later statement reads a register, so a record that the last statement emits isn't copied. If that is the input's
//! record, the caller emits it: the caller may own it.

ghost use Rattle.std.specs.Prelude.{IfOk};
ghost use Rattle.tac_syntax.specs.Trees.{statement_of, only};
ghost use Rattle.tac_syntax.specs.Exec.{exec};
ghost use Rattle.tac_syntax.specs.Ready.{IsReady, CanStart};
ghost use Rattle.tac_interp.specs.Machine.{AreEmitted};

use crate::machines::Machine;
use crate::runs::run_stmt;
use pact_record::OutOfMemory;
use std::alloc::Global;
use tac_syntax::{Body, Stmt};

/// The statements of a body after which no statement comes. The contract says what was emitted, not what a register has then. The call
/// returns whether the input's record is still to be emitted, as the last one.
#[cycle(finish)]
pub(crate) fn finish_body(
    alloc: Global,
    body: &Body,
    machine: &mut Machine<'_>,
) -> Result<bool, OutOfMemory>
    requires { IsReady body.now machine.old }
    ensures { IfOk result (λ passes. AreEmitted passes (exec body.now machine.old).input machine.new.emitted (exec body.now machine.old).emitted) }
{
    let stmts = body.stmts();
    if stmts.len() == 0 {
        return Ok(false);
    }
    let last = stmts.len() - 1;
    for at in 0..last {
        run_stmt(alloc, &stmts[at], machine)?;
    }
    finish_stmt(alloc, &stmts[last], machine)
}

// The last statement.
#[cycle(finish)]
fn finish_stmt(alloc: Global, stmt: &Stmt, machine: &mut Machine<'_>) -> Result<bool, OutOfMemory>
    requires { CanStart (statement_of stmt.now) machine.old }
    ensures { IfOk result (λ passes. AreEmitted passes (exec (only stmt.now) machine.old).input machine.new.emitted (exec (only stmt.now) machine.old).emitted) }
{
    match stmt {
        Stmt::Emit { from } => machine.emit_last(alloc, *from),
        Stmt::If { on, body, other } => {
            if machine.is_true(*on) {
                finish_body(alloc, body, machine)
            } else {
                finish_body(alloc, other, machine)
            }
        }
        _ => {
            run_stmt(alloc, stmt, machine)?;
            Ok(false)
        }
    }
}
