//! What in a program is legal but seldom meant.

ghost use Rattle.std.specs.Prelude.{IfOk, OnOk};
ghost use Rattle.program_hints.specs.Hints.{AreRight};

use crate::checks::{calls, is_called, is_right};
use crate::columns::note_columns;
use crate::dropped::note_dropped;
use crate::nulls::{note_keys, note_nulls, note_sink};
use crate::operations::{columns_of_callers, note_operations};
use function_hints::{
    Hint, HintList, note_least, note_unread, note_unset, number_of, order_fault, silent_in,
};
use pact_operators::{Op, OpKind, Program, context};
use pact_record::OutOfMemory;
use std::alloc::Global;
use tac_syntax::{Body, Valid};

/// What in the program is legal but seldom meant: hints of its functions, in text order, then of its operators, of its
/// sink and of its columns. A file may well have columns that a program doesn't need, so unread ones come only if a
/// field that is Null always was meant to be another one.
pub fn program_hints(alloc: Global, program: &Program) -> Result<HintList, OutOfMemory>
    ensures { IfOk result (AreRight program.now) }
{
    let found = found_hints(alloc, program)?;
    let mut list = HintList::new(alloc);
    for hint in found.items() {
        add_right(&mut list, program, *hint)?;
    }
    Ok(list)
}

// Appends a hint if it is right, as all are that are found.
fn add_right(list: &mut HintList, program: &Program, hint: Hint) -> Result<(), OutOfMemory>
    ensures { OnOk result (AreRight program.now list.old → AreRight program.now list.new) }
{
    if !is_right(program, &hint) {
        return Ok(());
    }
    list.push(hint)?;
    Ok(())
}

fn found_hints(alloc: Global, program: &Program) -> Result<HintList, OutOfMemory> {
    let mut list = HintList::new(alloc);
    note_functions(&mut list, program)?;
    note_operators(&mut list, program)?;
    note_sink(&mut list, program)?;
    note_dropped(&mut list, program)?;
    if has_null_field(list.items()) {
        note_columns(&mut list, program)?;
    }
    Ok(list)
}

/// The columns that no function reads, that are no key and that the sink doesn't keep.
pub fn unread_columns(alloc: Global, program: &Program) -> Result<HintList, OutOfMemory> {
    let mut list = HintList::new(alloc);
    note_columns(&mut list, program)?;
    Ok(list)
}

fn has_null_field(hints: &[Hint]) -> bool {
    for hint in hints {
        if matches!(
            hint,
            Hint::NeverSet { .. } | Hint::OtherSide { .. } | Hint::SinkNeverSet { .. }
        ) {
            return true;
        }
    }
    false
}

fn note_functions(list: &mut HintList, program: &Program) -> Result<(), OutOfMemory> {
    let functions = program.functions();
    for n in 0..functions.len() {
        let number = number_of(n);
        if !is_called(program.ops(), number) {
            list.push(Hint::UnusedFunction { function: number })?;
        }
        note_function(list, number, &functions[n].function().body)?;
    }
    Ok(())
}

fn note_function(list: &mut HintList, function: u32, body: &Body) -> Result<(), OutOfMemory> {
    note_unset(list, function, body)?;
    note_least(list, function, body)?;
    note_unread(list, function, body)?;
    if let Some(statement) = silent_in(body, 0) {
        list.push(Hint::NothingEmitted {
            function,
            statement,
        })?;
    }
    Ok(())
}

fn note_operators(list: &mut HintList, program: &Program) -> Result<(), OutOfMemory> {
    let ops = program.ops();
    for n in 0..ops.len() {
        if ops[n].kind != OpKind::Source {
            note_operator(list, program, number_of(n), &ops[n])?;
        }
    }
    Ok(())
}

fn note_operator(
    list: &mut HintList,
    program: &Program,
    at: u32,
    op: &Op,
) -> Result<(), OutOfMemory> {
    let plan = program.plan();
    let Some(called) = program.functions().get(op.function as usize) else {
        return Ok(());
    };
    if !plan.has(at) {
        return Ok(());
    }
    note_keys(list, at, &context(program, plan, at))?;
    if is_first_caller(program.ops(), at, op.function) {
        note_statements(list, program, at, op.function, called)?;
    }
    note_order(list, at, called)
}

fn is_first_caller(ops: &[Op], at: u32, function: u32) -> bool {
    for n in 0..ops.len() {
        if calls(&ops[n], function) {
            return number_of(n) == at;
        }
    }
    false
}

// What statements do with fields of the inputs. Operators that call one function share its statements, so only what is
// so for all of them counts, and comes once.
fn note_statements(
    list: &mut HintList,
    program: &Program,
    at: u32,
    function: u32,
    called: &Valid,
) -> Result<(), OutOfMemory> {
    let body = &called.function().body;
    note_nulls(list, program, at, function, body)?;
    let columns = columns_of_callers(program, function, called.named());
    note_operations(list, at, &columns, body)
}

fn note_order(list: &mut HintList, op: u32, called: &Valid) -> Result<(), OutOfMemory> {
    match order_fault(called) {
        Some(statement) => {
            list.push(Hint::OrderDependent { op, statement })?;
            Ok(())
        }
        None => Ok(()),
    }
}
