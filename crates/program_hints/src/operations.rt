//! Operations on texts that want numbers, on numbers that want texts, and comparisons of a text with a number.

use crate::checks::calls;
use crate::types::{Columns, Type, Types};
use function_hints::{Hint, HintList, assigned_in, behind, bit, inside, inside_other, number_of};
use pact_operators::{Op, OpKind, Plan, Program};
use pact_record::{Column, Fields, Keys, MAX_FIELDS, Op1, Op2, OutOfMemory};
use tac_syntax::{Body, Stmt};

/// What is known of the inputs of all operators that call a function, which sets the fields `named` itself. A field is
/// known if it comes from a column of a source and no function below sets it.
pub(crate) fn columns_of_callers(program: &Program, function: u32, named: Fields) -> Columns {
    let plan = program.plan();
    let ops = program.ops();
    let mut found = Found {
        texts: Fields::empty(),
        numbers: Fields::empty(),
        written: Fields::empty(),
    };
    for n in 0..ops.len() {
        let number = number_of(n);
        if calls(&ops[n], function) && plan.has(number) {
            found = found_below(program, &plan.subtree(number), number, &found);
        }
    }
    let texts = found.texts.minus(found.written);
    let numbers = found.numbers.minus(found.written);
    Columns {
        texts,
        numbers,
        text_keys: keys_of_callers(ops, function, texts),
        number_keys: keys_of_callers(ops, function, numbers),
        named,
    }
}

// The columns of sources, those of texts and those of numbers, and the fields that functions set.
#[derive(Clone, Copy)]
struct Found {
    texts: Fields,
    numbers: Fields,
    written: Fields,
}

// Adds what is below an operator.
fn found_below(program: &Program, below: &Plan, at: u32, before: &Found) -> Found {
    let mut found = *before;
    let ops = program.ops();
    for n in 0..ops.len() {
        let number = number_of(n);
        if number != at && below.has(number) {
            found = with_source(&found, ops[n].columns.columns());
            found = Found {
                texts: found.texts,
                numbers: found.numbers,
                written: found.written.union(written_by(program, &ops[n])),
            };
        }
    }
    found
}

fn with_source(before: &Found, source: &[Column]) -> Found {
    let mut found = *before;
    for column in source {
        if column.field < MAX_FIELDS {
            found = with_column(&found, *column);
        }
    }
    found
}

fn with_column(found: &Found, column: Column) -> Found {
    if column.field >= MAX_FIELDS {
        return *found;
    }
    if column.text {
        Found {
            texts: found.texts.with(column.field),
            numbers: found.numbers,
            written: found.written,
        }
    } else {
        Found {
            texts: found.texts,
            numbers: found.numbers.with(column.field),
            written: found.written,
        }
    }
}

// The positions of keys that are among the fields in each operator that calls the function, with a bit for each.
fn keys_of_callers(ops: &[Op], function: u32, fields: Fields) -> u32 {
    let mut found = u32::MAX;
    for op in ops {
        if calls(op, function) {
            found &= keys_among(op, fields);
        }
    }
    found
}

// A key of a CoGroup comes from either side.
fn keys_among(op: &Op, fields: Fields) -> u32 {
    let left = positions_among(&op.left_keys, fields);
    match op.kind {
        OpKind::CoGroup => left & positions_among(&op.right_keys, fields),
        _ => left,
    }
}

fn positions_among(keys: &Keys, fields: Fields) -> u32 {
    let mut found = 0u32;
    for n in 0..keys.len() {
        if fields.has(keys.at(n)) {
            found |= bit(n);
        }
    }
    found
}

// The fields that the operator's function may set.
fn written_by(program: &Program, op: &Op) -> Fields {
    if op.kind == OpKind::Source {
        return Fields::empty();
    }
    match program.functions().get(op.function as usize) {
        Some(called) => called.named(),
        None => Fields::empty(),
    }
}

/// Appends a hint for each operation of the function that surely gets a text where it wants a number, or the other way
/// round.
pub(crate) fn note_operations(
    list: &mut HintList,
    op: u32,
    columns: &Columns,
    body: &Body,
) -> Result<(), OutOfMemory> {
    walk(list, op, body, 0, columns, &Types::any())
}

// What is known of the registers goes into blocks, but what a block assigns is unknown after it, and in a loop before
// it.
#[cycle(operations)]
fn walk(
    list: &mut HintList,
    op: u32,
    body: &Body,
    first: u32,
    columns: &Columns,
    before: &Types,
) -> Result<(), OutOfMemory> {
    let mut types = *before;
    let mut at = first;
    for stmt in body.stmts() {
        types = walk_one(list, op, stmt, at, columns, &types)?;
        at = behind(at, stmt);
    }
    Ok(())
}

#[cycle(operations)]
fn walk_one(
    list: &mut HintList,
    op: u32,
    stmt: &Stmt,
    at: u32,
    columns: &Columns,
    types: &Types,
) -> Result<Types, OutOfMemory> {
    match stmt {
        Stmt::If { body, other, .. } => {
            walk(list, op, body, inside(at), columns, types)?;
            walk(list, op, other, inside_other(at, body), columns, types)?;
            Ok(types.without(&assigned_in(body).union(&assigned_in(other))))
        }
        Stmt::Repeat { body, .. } | Stmt::Each { body, .. } => {
            let turned = types.without(&assigned_in(body));
            walk(list, op, body, inside(at), columns, &turned)?;
            Ok(turned)
        }
        Stmt::One { op: by, a, .. } => {
            note(list, hint_of_one(op, at, *by, types.of(*a)))?;
            Ok(types.after(stmt, columns))
        }
        Stmt::Two { op: by, a, b, .. } => {
            note(list, hint_of(op, at, *by, types.of(*a), types.of(*b)))?;
            Ok(types.after(stmt, columns))
        }
        _ => Ok(types.after(stmt, columns)),
    }
}

fn note(list: &mut HintList, found: Option<Hint>) -> Result<(), OutOfMemory> {
    match found {
        Some(hint) => {
            list.push(hint)?;
            Ok(())
        }
        None => Ok(()),
    }
}

fn hint_of_one(op: u32, statement: u32, by: Op1, a: Type) -> Option<Hint> {
    match (by, a) {
        (Op1::Len, Type::Number { field, .. }) => Some(Hint::CatOfNumber {
            op,
            statement,
            field,
        }),
        _ => None,
    }
}

fn hint_of(op: u32, statement: u32, by: Op2, a: Type, b: Type) -> Option<Hint> {
    match by {
        Op2::Add | Op2::Sub | Op2::Mul | Op2::Div | Op2::Rem | Op2::AddW => {
            let field = text_among(a, b)?;
            Some(Hint::TextArithmetic {
                op,
                statement,
                field,
            })
        }
        Op2::Cat => {
            let field = number_among(a, b)?;
            Some(Hint::CatOfNumber {
                op,
                statement,
                field,
            })
        }
        Op2::Eq | Op2::Lt | Op2::Le => {
            let field = mixed(a, b)?;
            Some(Hint::TextWithNumber {
                op,
                statement,
                field,
            })
        }
        _ => None,
    }
}

// The field of the operand that is a text, if one is.
fn text_among(a: Type, b: Type) -> Option<Option<u32>> {
    match (a, b) {
        (Type::Text { field, .. }, _) | (_, Type::Text { field, .. }) => Some(field),
        _ => None,
    }
}

fn number_among(a: Type, b: Type) -> Option<Option<u32>> {
    match (a, b) {
        (Type::Number { field, .. }, _) | (_, Type::Number { field, .. }) => Some(field),
        _ => None,
    }
}

// If one operand is a text and the other one a number, and one of them surely isn't Null, the field of one of them.
fn mixed(a: Type, b: Type) -> Option<Option<u32>> {
    match (a, b) {
        (
            Type::Text {
                field: text,
                sure: one,
            },
            Type::Number {
                field: number,
                sure: two,
            },
        )
        | (
            Type::Number {
                field: number,
                sure: two,
            },
            Type::Text {
                field: text,
                sure: one,
            },
        ) => (one || two).then_some(text.or(number)),
        _ => None,
    }
}
