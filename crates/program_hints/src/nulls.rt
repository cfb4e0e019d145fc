//! Fields that are Null in all records.

ghost use Rattle.std.specs.Prelude.{◌<◌};
ghost use Rattle.pact_record.specs.declared.records.TheConstants.{MAX_FIELDS};

use crate::checks::calls;
use function_hints::{Hint, HintList, behind, bit, inside, inside_other, number_of};
use pact_operators::{Program, attributes_of, context};
use pact_record::{Fields, Keys, MAX_FIELDS, OutOfMemory};
use tac_syntax::{Body, Context, LoopList, Rec, Stmt};

/// The fields in which the records of an operator's inputs may have values, and which of the loops around a statement
/// go over the left input.
#[derive(Clone, Copy)]
pub(crate) struct Inputs {
    left: Fields,
    right: Fields,
    left_loops: u32,
}

impl Inputs {
    /// The inputs outside of all loops.
    pub(crate) fn new(left: Fields, right: Fields) -> Inputs {
        Inputs {
            left,
            right,
            left_loops: 0,
        }
    }

    /// The fields in which the record may have a value, if it is a record of an input.
    pub(crate) fn fields_of(&self, from: Rec) -> Option<Fields> {
        match from {
            Rec::Input | Rec::Left | Rec::First => Some(self.left),
            Rec::Right => Some(self.right),
            Rec::Join => Some(self.left.union(self.right)),
            Rec::Loop(name) => self.fields_of_loop(name),
            Rec::Reg(_) => None,
        }
    }

    fn fields_of_loop(&self, name: u32) -> Option<Fields> {
        if bit(name) == 0 {
            return None;
        }
        if self.left_loops & bit(name) != 0 {
            Some(self.left)
        } else {
            Some(self.right)
        }
    }

    /// The inputs inside a loop of that name.
    pub(crate) fn in_loop(&self, name: u32, list: LoopList) -> Inputs {
        let left_loops = match list {
            LoopList::Group | LoopList::Left => self.left_loops | bit(name),
            LoopList::Right => self.left_loops & !bit(name),
        };
        Inputs {
            left: self.left,
            right: self.right,
            left_loops,
        }
    }
}

/// Appends a hint for each field that the function reads from the inputs of an operator, if the field is Null there in
/// all records of all operators that call the function.
pub(crate) fn note_nulls(
    list: &mut HintList,
    program: &Program,
    op: u32,
    function: u32,
    body: &Body,
) -> Result<(), OutOfMemory> {
    walk(
        list,
        op,
        body,
        0,
        &inputs_of_callers(program, function),
        Fields::empty(),
    )?;
    Ok(())
}

// The fields that the inputs of some operator have that calls the function.
fn inputs_of_callers(program: &Program, function: u32) -> Inputs {
    let plan = program.plan();
    let ops = program.ops();
    let mut left = Fields::empty();
    let mut right = Fields::empty();
    for n in 0..ops.len() {
        let number = number_of(n);
        if calls(&ops[n], function) && plan.has(number) {
            let inputs = context(program, plan, number);
            left = left.union(inputs.left);
            right = right.union(inputs.right);
        }
    }
    Inputs::new(left, right)
}

/// Appends a hint for each key of an operator that is Null in all records of its input.
pub(crate) fn note_keys(
    list: &mut HintList,
    op: u32,
    context: &Context,
) -> Result<(), OutOfMemory> {
    let inputs = Inputs::new(context.left, context.right);
    note_side(list, op, &context.left_keys, inputs.left, &inputs)?;
    note_side(list, op, &context.right_keys, inputs.right, &inputs)
}

fn note_side(
    list: &mut HintList,
    op: u32,
    keys: &Keys,
    known: Fields,
    inputs: &Inputs,
) -> Result<(), OutOfMemory> {
    for n in 0..keys.len() {
        let field = keys.at(n);
        if !known.has(field) {
            list.push(null_hint(inputs, op, None, field))?;
        }
    }
    Ok(())
}

// The hint of a field that the records read from don't have.
fn null_hint(inputs: &Inputs, op: u32, statement: Option<u32>, field: u32) -> Hint
    requires { field < MAX_FIELDS }
{
    if inputs.left.has(field) || inputs.right.has(field) {
        Hint::OtherSide {
            op,
            statement,
            field,
        }
    } else {
        Hint::NeverSet {
            op,
            statement,
            field,
        }
    }
}

// The fields that were reported already come in and go out, since each is reported once.
#[cycle(nulls)]
fn walk(
    list: &mut HintList,
    op: u32,
    body: &Body,
    first: u32,
    inputs: &Inputs,
    reported: Fields,
) -> Result<Fields, OutOfMemory> {
    let mut told = reported;
    let mut at = first;
    for stmt in body.stmts() {
        told = walk_one(list, op, stmt, at, inputs, told)?;
        at = behind(at, stmt);
    }
    Ok(told)
}

#[cycle(nulls)]
fn walk_one(
    list: &mut HintList,
    op: u32,
    stmt: &Stmt,
    at: u32,
    inputs: &Inputs,
    reported: Fields,
) -> Result<Fields, OutOfMemory> {
    match stmt {
        Stmt::If { body, other, .. } => {
            let one = walk(list, op, body, inside(at), inputs, reported)?;
            walk(list, op, other, inside_other(at, body), inputs, one)
        }
        Stmt::Repeat { body, .. } => walk(list, op, body, inside(at), inputs, reported),
        Stmt::Each {
            name,
            list: group,
            body,
        } => walk(
            list,
            op,
            body,
            inside(at),
            &inputs.in_loop(*name, *group),
            reported,
        ),
        Stmt::Get { from, field, .. } => {
            note_read(list, op, at, *from, *field, inputs, reported)
        }
        _ => Ok(reported),
    }
}

fn note_read(
    list: &mut HintList,
    op: u32,
    statement: u32,
    from: Rec,
    field: u32,
    inputs: &Inputs,
    reported: Fields,
) -> Result<Fields, OutOfMemory> {
    let Some(known) = inputs.fields_of(from) else {
        return Ok(reported);
    };
    if field >= MAX_FIELDS || known.has(field) || reported.has(field) {
        return Ok(reported);
    }
    list.push(null_hint(inputs, op, Some(statement), field))?;
    Ok(reported.with(field))
}

/// Appends a hint for each field of the sink that is Null in all records.
pub(crate) fn note_sink(list: &mut HintList, program: &Program) -> Result<(), OutOfMemory> {
    let known = attributes_of(program.functions(), program.ops(), program.plan());
    for field in program.sink() {
        if *field < MAX_FIELDS && !known.has(*field) {
            list.push(Hint::SinkNeverSet { field: *field })?;
        }
    }
    Ok(())
}
