//! Whether hints hold.

ghost use Rattle.std.specs.Prelude.{◌≡◌, ◌<◌, ◌||◌, true, false, IfSome};
ghost use Rattle.pact_operators.specs.Programs.{is_operator_kind};
ghost use Rattle.pact_record.specs.declared.records.TheConstants.{MAX_FIELDS};
ghost use Rattle.pact_record.specs.FieldSets.{has_field};
ghost use Rattle.pact_record.specs.Keys.{is_listed};
ghost use Rattle.tac_syntax.specs.Trees.{only};
ghost use Rattle.program_hints.specs.Hints.{IsCalled, IsKey, IsNeverKept, IsNeverSet, IsOrderDependent, IsRead, IsRight, IsUsed, calls, has_get, is_called, is_input};

use function_hints::Hint;
use order_free::order_test;
use pact_operators::{Op, OpKind, Program, attributes_of, context};
use pact_record::{Fields, MAX_FIELDS};
use tac_syntax::{Body, Rec, Stmt, Valid};

/// Whether what the hint says is right, as far as a clause says it.
pub(crate) fn is_right(program: &Program, hint: &Hint) -> bool
    ensures { result ≡ true → IsRight program.now hint.now }
{
    match hint {
        Hint::NeverSet {
            op,
            statement,
            field,
        } => is_used(program, *op, *statement, *field) && is_never_set(program, *op, *field),
        Hint::SinkNeverSet { field } => is_never_kept(program, *field),
        Hint::UnusedFunction { function } => !is_called(program.ops(), *function),
        Hint::OrderDependent { op, .. } => is_order_dependent(program, *op),
        _ => true,
    }
}

/// Whether the operator calls the function.
pub(crate) fn calls(op: &Op, function: u32) -> bool
    ensures { result ≡ calls op.now function }
{
    is_operator(op) && op.function == function
}

fn is_operator(op: &Op) -> bool
    ensures { result ≡ is_operator_kind op.now.kind }
{
    op.kind != OpKind::Source
}

/// Whether some operator calls the function.
pub(crate) fn is_called(ops: &[Op], function: u32) -> bool
    ensures { result ≡ is_called ops.now function }
{
    for op in ops {
        if calls(op, function) {
            return true;
        }
    }
    false
}

// Whether a statement reads the field of an input's record, or one in its blocks does.
#[cycle(got)]
fn gets(stmt: &Stmt, field: u32) -> bool
    ensures { result ≡ has_get (only stmt.now) field }
{
    match stmt {
        Stmt::Get {
            from,
            field: read,
            ..
        } => is_input(*from) && *read == field,
        Stmt::If { body, other, .. } => has_get(body, field) || has_get(other, field),
        Stmt::Repeat { body, .. } | Stmt::Each { body, .. } => has_get(body, field),
        _ => false,
    }
}

#[cycle(got)]
fn has_get(body: &Body, field: u32) -> bool
    ensures { result ≡ has_get body.now field }
{
    for stmt in body.stmts() {
        if gets(stmt, field) {
            return true;
        }
    }
    false
}

fn is_input(from: Rec) -> bool
    ensures { result ≡ is_input from }
{
    !matches!(from, Rec::Reg(_))
}

fn is_used(program: &Program, op: u32, statement: Option<u32>, field: u32) -> bool
    ensures { result ≡ true → IsUsed program.now op statement field }
{
    match statement {
        Some(_) => is_read(program, op, field),
        None => is_key(program, op, field),
    }
}

fn is_read(program: &Program, op: u32, field: u32) -> bool
    ensures { result ≡ true → IsRead program.now op field }
{
    match called(program, op) {
        Some(function) => has_get(&function.function().body, field),
        None => false,
    }
}

fn is_key(program: &Program, op: u32, field: u32) -> bool
    ensures { result ≡ true → IsKey program.now op field }
{
    match program.ops().get(op as usize) {
        Some(found) => is_among_keys(found, field),
        None => false,
    }
}

fn is_among_keys(op: &Op, field: u32) -> bool
    ensures { result ≡ true → (is_listed op.now.left_keys field || is_listed op.now.right_keys field) ≡ true }
{
    if field >= MAX_FIELDS {
        return false;
    }
    op.left_keys
        .fields()
        .union(op.right_keys.fields())
        .has(field)
}

fn is_never_set(program: &Program, op: u32, field: u32) -> bool
    ensures { result ≡ true → IsNeverSet program.now op field }
{
    let plan = program.plan();
    if field >= MAX_FIELDS || !plan.has(op) {
        return false;
    }
    let inputs = context(program, plan, op);
    is_in_neither(inputs.left, inputs.right, field)
}

fn is_in_neither(left: Fields, right: Fields, field: u32) -> bool
    requires { field < MAX_FIELDS }
    ensures left { result ≡ true → has_field left field ≡ false }
    ensures right { result ≡ true → has_field right field ≡ false }
{
    !left.has(field) && !right.has(field)
}

fn is_never_kept(program: &Program, field: u32) -> bool
    ensures { result ≡ true → IsNeverKept program.now field }
{
    if field >= MAX_FIELDS {
        return false;
    }
    let known = attributes_of(program.functions(), program.ops(), program.plan());
    !known.has(field)
}

// The function that the operator calls. A source calls none.
fn called(program: &Program, op: u32) -> Option<&Valid>
    ensures { IfSome result (λ f. IsCalled program.now op f.now) }
{
    let found = program.ops().get(op as usize)?;
    if !is_operator(found) {
        return None;
    }
    program.functions().get(found.function as usize)
}

fn is_order_dependent(program: &Program, op: u32) -> bool
    ensures { result ≡ true → IsOrderDependent program.now op }
{
    match called(program, op) {
        Some(function) => !order_test(function),
        None => false,
    }
}
