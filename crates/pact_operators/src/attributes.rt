//! The fields in which the output or the input of an operator or source may have a value.

ghost use Rattle.std.specs.Prelude.{◌≡◌, ◌<◌, ◌↔◌, ℕ, true, IsTrue, slice_get};
ghost use Rattle.std.specs.List.{AllByRecursion};
ghost use Rattle.pact_bag.specs.SourceRows.{IsColumnField};
ghost use Rattle.pact_record.specs.declared.records.TheConstants.{MAX_FIELDS};
ghost use Rattle.pact_record.specs.FieldSets.{has_field};
ghost use Rattle.plan_trees.specs.Plans.{has, subtree_of};
ghost use Rattle.tac_syntax.specs.Contexts.{IsContextOf};
ghost use Rattle.tac_syntax.specs.declared.declarations.OpKind.TheVariants.{Source};
ghost use Rattle.pact_operators.specs.PlanOps.{kind_at, left_keys_in, right_keys_in};
ghost use Rattle.pact_operators.specs.Programs.{FunctionNames, HasAttribute, HasLeftAttribute, Owns, OwnsBy, HasRightAttribute, fields_of, source_fields};

use crate::operators::Op;
use crate::programs::Program;
use pact_record::{Column, Fields, Keys};
use plan_trees::{Parts, Plan};
use tac_syntax::{Context, OpKind, Valid};

fn column_fields(columns: &[Column]) -> Fields
    requires { AllByRecursion (λ k. k < MAX_FIELDS) (fields_of columns.now) }
    ensures { (k : ℕ) → IsTrue (has_field result k) ↔ IsColumnField k columns.now }
{
    let mut found = Fields::empty();
    for column in columns {
        found = found.with(column.field);
    }
    found
}

fn called_fields(functions: &[Valid], number: u32) -> Fields
    ensures { (k : ℕ) → IsTrue (has_field result k) ↔ FunctionNames functions.now number k }
{
    match functions.get(number as usize) {
        Some(called) => called.named(),
        None => Fields::empty(),
    }
}

fn fields_of(functions: &[Valid], op: &Op) -> Fields
    requires { AllByRecursion (λ k. k < MAX_FIELDS) (fields_of op.now.columns) }
    ensures { (k : ℕ) → IsTrue (has_field result k) ↔ OwnsBy op.now.kind functions.now op.now k }
{
    match op.kind {
        OpKind::Source => column_fields(op.columns.columns()),
        _ => called_fields(functions, op.function),
    }
}

fn own_fields(functions: &[Valid], ops: &[Op], at: u32) -> Fields
    requires { AllByRecursion (λ k. k < MAX_FIELDS) (source_fields ops.now) }
    ensures { (k : ℕ) → IsTrue (has_field result k) ↔ Owns functions.now ops.now at k }
{
    match ops.get(at as usize) {
        Some(op) => fields_of(functions, op),
        None => Fields::empty(),
    }
}

// The own fields of all operators and sources of the plan.
pub fn attributes_of(functions: &[Valid], ops: &[Op], plan: &Plan) -> Fields
    requires { AllByRecursion (λ k. k < MAX_FIELDS) (source_fields ops.now) }
    ensures { (k : ℕ) → IsTrue (has_field result k) ↔ HasAttribute functions.now ops.now plan.now k }
{
    match plan.parts() {
        Parts::Alone { at } => own_fields(functions, ops, at),
        Parts::OverOne { at, input } => {
            own_fields(functions, ops, at).union(attributes_of(functions, ops, &input))
        }
        Parts::OverTwo { at, left, right } => {
            let left = attributes_of(functions, ops, &left);
            let right = attributes_of(functions, ops, &right);
            own_fields(functions, ops, at).union(left.union(right))
        }
    }
}

/// The attributes of what the operator or source emits: the columns of the sources and the named fields of the
/// functions in the plan below it.
pub fn attrs(program: &Program, plan: &Plan, at: u32) -> Fields
    requires { has at plan.now ≡ true }
    ensures { (k : ℕ) → IsTrue (has_field result k) ↔ HasAttribute program.now.functions program.now.ops (subtree_of at plan.now) k }
{
    attributes_of(program.functions(), program.ops(), &plan.subtree(at))
}

// What the left input of the root may hold, and what the right one.
fn input_fields(functions: &[Valid], ops: &[Op], plan: &Plan) -> (Fields, Fields)
    requires { AllByRecursion (λ k. k < MAX_FIELDS) (source_fields ops.now) }
    ensures left { (k : ℕ) → IsTrue (has_field result.0 k) ↔ HasLeftAttribute functions.now ops.now plan.now k }
    ensures right { (k : ℕ) → IsTrue (has_field result.1 k) ↔ HasRightAttribute functions.now ops.now plan.now k }
{
    match plan.parts() {
        Parts::Alone { .. } => (Fields::empty(), Fields::empty()),
        Parts::OverOne { input, .. } => (attributes_of(functions, ops, &input), Fields::empty()),
        Parts::OverTwo { left, right, .. } => {
            let left = attributes_of(functions, ops, &left);
            let right = attributes_of(functions, ops, &right);
            (left, right)
        }
    }
}

fn keys_of(ops: &[Op], at: u32) -> (Keys, Keys)
    ensures left { result.0 ≡ left_keys_in (slice_get ops.now at) }
    ensures right { result.1 ≡ right_keys_in (slice_get ops.now at) }
{
    match ops.get(at as usize) {
        Some(op) => (op.left_keys, op.right_keys),
        None => (Keys::new(), Keys::new()),
    }
}

/// The context of an operator in the plan: what its inputs may hold, which is the attributes of what it reads, and its
/// keys. A source reads nothing.
pub fn context(program: &Program, plan: &Plan, at: u32) -> Context
    requires { has at plan.now ≡ true }
    ensures left { (k : ℕ) → IsTrue (has_field result.left k) ↔ HasLeftAttribute program.now.functions program.now.ops (subtree_of at plan.now) k }
    ensures right { (k : ℕ) → IsTrue (has_field result.right k) ↔ HasRightAttribute program.now.functions program.now.ops (subtree_of at plan.now) k }
    ensures left_keys { result.left_keys ≡ left_keys_in (slice_get program.now.ops at) }
    ensures right_keys { result.right_keys ≡ right_keys_in (slice_get program.now.ops at) }
    ensures below { (kind_at program.now.ops at ≡ Source → ⊥) → IsContextOf program.now.fields result }
{
    let functions = program.functions();
    let ops = program.ops();
    let subtree = plan.subtree(at);
    let (left, right) = input_fields(functions, ops, &subtree);
    let (left_keys, right_keys) = keys_of(ops, at);
    Context {
        left,
        right,
        left_keys,
        right_keys,
    }
}
