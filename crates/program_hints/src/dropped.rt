//! Fields of the sink that a function leaves out.

use crate::nulls::Inputs;
use function_hints::{Hint, HintList};
use pact_operators::{Parts, Plan, Program, attributes_of};
use pact_record::{Fields, MAX_FIELDS, OutOfMemory};
use tac_syntax::{Body, Stmt};

/// Appends a hint for each field of the sink that some source or operator sets, but that no record at the sink has.
pub(crate) fn note_dropped(list: &mut HintList, program: &Program) -> Result<(), OutOfMemory> {
    let set = attributes_of(program.functions(), program.ops(), program.plan());
    let kept = kept_of(program, program.plan());
    for field in program.sink() {
        if *field < MAX_FIELDS && set.has(*field) && !kept.has(*field) {
            list.push(Hint::SinkDropped { field: *field })?;
        }
    }
    Ok(())
}

// The fields in which the records that the plan's root emits may have values.
fn kept_of(program: &Program, plan: &Plan) -> Fields {
    match plan.parts() {
        Parts::Alone { .. } => attributes_of(program.functions(), program.ops(), plan),
        Parts::OverOne { at, input } => {
            kept_by(program, at, kept_of(program, &input), Fields::empty())
        }
        Parts::OverTwo { at, left, right } => kept_by(
            program,
            at,
            kept_of(program, &left),
            kept_of(program, &right),
        ),
    }
}

// An operator emits what its function sets, and what the records of the inputs have that it copies.
fn kept_by(program: &Program, at: u32, left: Fields, right: Fields) -> Fields {
    let Some(op) = program.ops().get(at as usize) else {
        return Fields::all(MAX_FIELDS);
    };
    match program.functions().get(op.function as usize) {
        Some(called) => {
            let copied = copied_in(&called.function().body, &Inputs::new(left, right));
            called.named().union(copied)
        }
        None => Fields::all(MAX_FIELDS),
    }
}

#[cycle(copied)]
fn copied_in(body: &Body, inputs: &Inputs) -> Fields {
    let mut found = Fields::empty();
    for stmt in body.stmts() {
        found = found.union(copied_by(stmt, inputs));
    }
    found
}

#[cycle(copied)]
fn copied_by(stmt: &Stmt, inputs: &Inputs) -> Fields {
    match stmt {
        Stmt::Copy { from, .. } => match inputs.fields_of(*from) {
            Some(fields) => fields,
            None => Fields::empty(),
        },
        Stmt::If { body, other, .. } => { copied_in(body, inputs).union(copied_in(other, inputs)) }
        Stmt::Repeat { body, .. } => copied_in(body, inputs),
        Stmt::Each { name, list, body } => copied_in(body, &inputs.in_loop(*name, *list)),
        _ => Fields::empty(),
    }
}
