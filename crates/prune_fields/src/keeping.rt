//! Maps that keep the fields of a set, and drop the others.

ghost use Rattle.std.specs.Prelude.{◌≡◌, ◌≤◌, decimal, IfOk, OnOk, length};
ghost use Rattle.pact_record.specs.declared.records.TheConstants.{MAX_FIELDS};
ghost use Rattle.pact_record.specs.FieldSets.{has_field};
ghost use Rattle.plan_trees.specs.Inserted.{inserted_above};
ghost use Rattle.tac_syntax.specs.declared.statements.Rec.TheVariants.{Input};
ghost use Rattle.tac_syntax.specs.Code.{get_field, joined, nesting, plain, set_field, stop};
ghost use Rattle.tac_syntax.specs.Limits.{nesting_limit};
ghost use Rattle.tac_syntax.specs.Trees.{only};
ghost use Rattle.prune_fields.specs.Insertions.{CanKeep, keep_op, kept_into};
ghost use Rattle.prune_fields.specs.KeepFunctions as keep;

use pact_operators::{Op, Program, insert, number_name};
use pact_record::{Fields, Keys, OutOfMemory};
use plan_trees::Physical;
use std::alloc::Global;
use tac_syntax::{Body, Function, Kind, OpKind, Rec, Stmt, Valid};

// Appends the statements that copy one field into record register 0.
fn put_field(body: &mut Body, field: u32) -> Result<(), OutOfMemory>
    ensures { OnOk result (body.new ≡ joined body.old (plain (get_field 0 Input field) (plain (set_field 0 field 0) stop))) }
{
    body.append(Stmt::Get {
        to: 0,
        from: Rec::Input,
        field,
    })?;
    body.append(Stmt::Set {
        to: 0,
        field,
        value: 0,
    })
}

fn keep_body(alloc: Global, fields: u32, kept: Fields) -> Result<Body, OutOfMemory>
    requires { fields ≤ MAX_FIELDS }
    ensures { IfOk result (λ b. b ≡ keep.keep_body fields (has_field kept)) }
{
    let mut body = Body::new(alloc);
    body.append(Stmt::New { to: 0 })?;
    for field in 0..fields {
        if kept.has(field) {
            put_field(&mut body, field)?;
        }
    }
    body.append(Stmt::Emit { from: 0 })?;
    Ok(body)
}

// The function that keeps the fields of the set.
fn keep_function(
    alloc: Global,
    number: u32,
    fields: u32,
    kept: Fields,
) -> Result<Valid, OutOfMemory>
    requires some { 1 ≤ fields }
    requires few { fields ≤ MAX_FIELDS }
    ensures { IfOk result (λ v. v ≡ keep.keep_function number fields (has_field kept)) }
{
    let name = number_name(alloc, number)?;
    let body = keep_body(alloc, fields, kept)?;
    let function = Function {
        name,
        kind: Kind::Map,
        keys: 0,
        body,
    };
    Ok(Valid::seal(function, fields))
}

/// Inserts a Map that keeps these fields on the edge from the number.
pub(crate) fn keep_at(
    alloc: Global,
    program: Program,
    physical: Physical,
    at: u32,
    kept: Fields,
) -> Result<(Program, Physical), OutOfMemory>
    requires { CanKeep program physical.tree at (has_field kept) }
    ensures program { IfOk result (λ r. r.0 ≡ kept_into program physical.tree at (has_field kept)) }
    ensures physical { IfOk result (λ r. r.1 ≡ inserted_above at (length program.ops) physical) }
{
    let new = program.ops().len() as u32;
    let fields = program.fields();
    let function = keep_function(alloc, new, fields, kept)?;
    let op = Op::inserted(alloc, new, OpKind::Map, Keys::new())?;
    insert(program, physical, at, op, function)
}
