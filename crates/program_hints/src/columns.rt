//! Columns that nobody reads.

use function_hints::{Hint, HintList, number_of};
use pact_operators::{Op, OpKind, Program};
use pact_record::{Fields, Keys, MAX_FIELDS, OutOfMemory};
use tac_syntax::{Body, Stmt, Valid};

/// Appends a hint for each column of a source that no function reads, that is no key and that the sink doesn't keep.
pub(crate) fn note_columns(list: &mut HintList, program: &Program) -> Result<(), OutOfMemory> {
    let used = used_fields(program);
    let ops = program.ops();
    for at in 0..ops.len() {
        note_source(list, number_of(at), &ops[at], used)?;
    }
    Ok(())
}

fn note_source(list: &mut HintList, at: u32, op: &Op, used: Fields) -> Result<(), OutOfMemory> {
    for column in op.columns.columns() {
        let field = column.field;
        if field < MAX_FIELDS && !used.has(field) {
            list.push(Hint::ColumnUnread { op: at, field })?;
        }
    }
    Ok(())
}

// The fields that some function reads, that are keys, or that the sink keeps.
fn used_fields(program: &Program) -> Fields {
    let mut used = listed(program.sink());
    for op in program.ops() {
        used = used.union(used_by(program.functions(), op));
    }
    used
}

fn listed(fields: &[u32]) -> Fields {
    let mut found = Fields::empty();
    for field in fields {
        if *field < MAX_FIELDS {
            found = found.with(*field);
        }
    }
    found
}

fn used_by(functions: &[Valid], op: &Op) -> Fields {
    let keys = key_fields(&op.left_keys).union(key_fields(&op.right_keys));
    match op.kind {
        OpKind::Source => keys,
        _ => match functions.get(op.function as usize) {
            Some(called) => keys.union(gets_in(&called.function().body)),
            None => keys,
        },
    }
}

fn key_fields(keys: &Keys) -> Fields {
    keys.fields()
}

// The fields that a body reads, from any record. If the number of a field comes from a register, it may be any.
#[cycle(gets)]
fn gets_in(body: &Body) -> Fields {
    let mut found = Fields::empty();
    for stmt in body.stmts() {
        found = found.union(gets_by(stmt));
    }
    found
}

#[cycle(gets)]
fn gets_by(stmt: &Stmt) -> Fields {
    match stmt {
        Stmt::Get { field, .. } if *field < MAX_FIELDS => Fields::empty().with(*field),
        Stmt::GetAt { .. } => Fields::all(MAX_FIELDS),
        Stmt::If { body, other, .. } => gets_in(body).union(gets_in(other)),
        Stmt::Repeat { body, .. } | Stmt::Each { body, .. } => gets_in(body),
        _ => Fields::empty(),
    }
}
