//! The fields that are needed of the records of a source or an operator.

ghost use Rattle.std.specs.Prelude.{◌≡◌, ◌<◌, ℕ, true};
ghost use Rattle.std.specs.List.{AllByRecursion};
ghost use Rattle.pact_record.specs.declared.records.TheConstants.{MAX_FIELDS};
ghost use Rattle.pact_record.specs.FieldSets.{has_field};
ghost use Rattle.pact_record.specs.Keys.{is_listed};
ghost use Rattle.plan_trees.specs.Plans.{has, root_of};
ghost use Rattle.tac_syntax.specs.declared.declarations.OpKind.TheVariants.{Source};
ghost use Rattle.pact_operators.specs.PlanOps.{kind_at};
ghost use Rattle.pact_operators.specs.Programs.{HasArity, IsPlanOf};
ghost use Rattle.ship_strategy.specs.PlanFacts.{left_attribute, right_attribute};
ghost use Rattle.prune_fields.specs.Needs as needs;
ghost use Rattle.prune_fields.specs.Needs.{AreNeedsOf, entered, needs_from, wants_of, within};
ghost use Rattle.prune_fields.specs.NeedTables.{needs_in};

use crate::need_tables::NeedTable;
use pact_operators::{Program, context};
use pact_record::Fields;
use plan_trees::{Parts, Plan};
use tac_flow::sets;

// The fields that the root of a tree needs of its inputs: of its left or only one, and of its right one.
fn needs_of_inputs(program: &Program, tree: &Plan, above: Fields) -> (Fields, Fields)
    requires operator { kind_at program.now.ops (root_of tree.now) ≡ Source → ⊥ }
    ensures left { has_field result.0 ≡ within (wants_of program.now tree.now (has_field above)) (left_attribute program.now tree.now) }
    ensures right { has_field result.1 ≡ within (wants_of program.now tree.now (has_field above)) (right_attribute program.now tree.now) }
{
    let at = tree.root();
    let inputs = context(program, tree, at);
    // this call shows the prover that the program's functions are valid
    let _fields = program.fields();
    let found = sets(program.function_at(at), &inputs);
    let wanted = found.reads.union(above.minus(found.writes));
    (wanted.meet(inputs.left), wanted.meet(inputs.right))
}

// The needed fields of a number, if `above` is needed of the tree's root.
fn need_from(program: &Program, tree: &Plan, above: Fields, at: u32) -> Fields
    requires arity { HasArity program.now.ops tree.now }
    ensures { has_field result ≡ needs_from program.now (has_field above) tree.now at }
{
    match tree.parts() {
        Parts::Alone { .. } => above,
        Parts::OverOne { at: root, input } => {
            if at == root {
                return above;
            }
            let (only, _) = needs_of_inputs(program, tree, above);
            need_from(program, &input, only, at)
        }
        Parts::OverTwo {
            at: root,
            left,
            right,
        } => {
            if at == root {
                return above;
            }
            let (on_left, on_right) = needs_of_inputs(program, tree, above);
            if left.has(at) {
                need_from(program, &left, on_left, at)
            } else {
                need_from(program, &right, on_right, at)
            }
        }
    }
}

fn listed(fields: &[u32]) -> Fields
    requires { AllByRecursion (λ k. k < MAX_FIELDS) fields.now }
    ensures { has_field result ≡ is_listed fields.now }
{
    let mut found = Fields::empty();
    for field in fields {
        found = found.with(*field);
    }
    found
}

/// The needed fields of the records of a source or operator. Of the plan's root these are the sink's fields. Of any
/// other source or operator they are the fields that its consumer reads, or copies because they are needed above it.
/// Only attributes count.
pub fn need(program: &Program, plan: &Plan, at: u32) -> Fields
    requires { IsPlanOf program.now.functions program.now.ops plan.now }
    ensures { has_field result ≡ needs.need program.now plan.now at }
{
    need_from(program, plan, listed(program.sink()), at)
}

// Enters the needed fields of each number of a tree, if `above` is needed of its root.
fn enter(program: &Program, tree: &Plan, above: Fields, table: &mut NeedTable)
    requires arity { HasArity program.now.ops tree.now }
    ensures { needs_in table.new ≡ entered program.now (has_field above) tree.now (needs_in table.old) }
{
    match tree.parts() {
        Parts::Alone { at } => table.set(at, above),
        Parts::OverOne { at, input } => {
            let (only, _) = needs_of_inputs(program, tree, above);
            enter(program, &input, only, table);
            table.set(at, above);
        }
        Parts::OverTwo { at, left, right } => {
            let (on_left, on_right) = needs_of_inputs(program, tree, above);
            enter(program, &right, on_right, table);
            enter(program, &left, on_left, table);
            table.set(at, above);
        }
    }
}

/// The needed fields of each source and operator of the plan. Each operator is analysed once. Calls of `need` for all
/// numbers would analyse an operator once for each number below it.
pub(crate) fn needs_of_all(program: &Program, plan: &Plan) -> NeedTable
    requires { IsPlanOf program.now.functions program.now.ops plan.now }
    ensures { AreNeedsOf program.now plan.now (needs_in result) }
{
    let mut table = NeedTable::blank();
    enter(program, plan, listed(program.sink()), &mut table);
    table
}
