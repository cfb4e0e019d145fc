//! Bodies: their statements one after the other, and the blocks among them.

ghost use Rattle.std.specs.Prelude.{◌≡◌, OnOk};
ghost use Rattle.tac_syntax.specs.Trees.{statement_of, only};
ghost use Rattle.tac_syntax.specs.Call.{rows_of};
ghost use Rattle.tac_syntax.specs.Exec.{exec, times, for_each};
ghost use Rattle.tac_syntax.specs.Ready.{IsReady, IsReadyIn, CanStart};

use crate::machines::Machine;
use pact_record::OutOfMemory;
use std::alloc::Global;
use tac_syntax::{Body, LoopList, Stmt};

/// One statement, with the blocks in it.
#[cycle(run)]
pub(crate) fn run_stmt(
    alloc: Global,
    stmt: &Stmt,
    machine: &mut Machine<'_>,
) -> Result<(), OutOfMemory>
    requires { CanStart (statement_of stmt.now) machine.old }
    ensures { OnOk result (machine.new ≡ exec (only stmt.now) machine.old) }
{
    match stmt {
        Stmt::Int { to, value } => machine.load_int(*to, *value),
        Stmt::Text { to, value } => machine.load_text(alloc, *to, value),
        Stmt::Null { to } => machine.load_null(*to),
        Stmt::Mov { to, from } => machine.move_value(alloc, *to, *from),
        Stmt::Get { to, from, field } => machine.get_field(alloc, *to, *from, *field),
        Stmt::GetAt { to, from, at } => machine.get_at(alloc, *to, *from, *at),
        Stmt::Key { to, at } => machine.get_key(alloc, *to, *at),
        Stmt::One { to, op, a } => machine.apply_one(*to, *op, *a),
        Stmt::Two { to, op, a, b } => machine.apply_two(alloc, *to, *op, *a, *b),
        Stmt::New { to } => machine.new_record(*to),
        Stmt::Copy { to, from } => machine.copy_record(alloc, *to, *from),
        Stmt::Set { to, field, value } => machine.set_field(alloc, *to, *field, *value),
        Stmt::SetAt { to, at, value } => machine.set_at(alloc, *to, *at, *value),
        Stmt::Emit { from } => machine.emit_record(alloc, *from),
        Stmt::If { on, body, other } => {
            if machine.is_true(*on) {
                run_body(alloc, body, machine)
            } else {
                run_body(alloc, other, machine)
            }
        }
        Stmt::Repeat { count, body } => run_repeat(alloc, *count, body, machine),
        Stmt::Each { name, list, body } => run_each(alloc, *name, *list, body, machine),
    }
}

// The statements of a body, one after the other.
#[cycle(run)]
fn run_body(alloc: Global, body: &Body, machine: &mut Machine<'_>) -> Result<(), OutOfMemory>
    requires { IsReady body.now machine.old }
    ensures { OnOk result (machine.new ≡ exec body.now machine.old) }
{
    for stmt in body.stmts() {
        run_stmt(alloc, stmt, machine)?;
    }
    Ok(())
}

#[cycle(run)]
fn run_repeat(
    alloc: Global,
    count: u32,
    body: &Body,
    machine: &mut Machine<'_>,
) -> Result<(), OutOfMemory>
    requires { IsReady body.now machine.old }
    ensures { OnOk result (machine.new ≡ times count (exec body.now) machine.old) }
{
    for _ in 0..count {
        run_body(alloc, body, machine)?;
    }
    Ok(())
}

#[cycle(run)]
fn run_each(
    alloc: Global,
    name: u32,
    list: LoopList,
    body: &Body,
    machine: &mut Machine<'_>,
) -> Result<(), OutOfMemory>
    requires { IsReadyIn name body.now machine.old }
    ensures { OnOk result (machine.new ≡ for_each name (rows_of machine.old.input list) (exec body.now) machine.old) }
{
    for row in machine.rows(list) {
        machine.bind(name, row)?;
        run_body(alloc, body, machine)?;
    }
    Ok(())
}
