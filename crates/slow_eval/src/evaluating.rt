//! From the rows of the sources to the rows of a plan's root.

ghost use Rattle.std.specs.Prelude.{◌≡◌, ◌≤◌, ℕ, List, length, slice_get, IfOk, OnOk};
ghost use Rattle.pact_record.specs.declared.values.Value.{Value as FieldValue};
ghost use Rattle.pact_operators.specs.Allowed.{Allows, Counted, Gives, GivesBoth};
ghost use Rattle.plan_trees.specs.Distinct.{IsAbsent};
ghost use Rattle.pact_operators.specs.Inputs.{AreInputsOf};
ghost use Rattle.pact_operators.specs.PlanOps.{kind_at, plan_ops, source_place};
ghost use Rattle.plan_trees.specs.Plans.{nodes};
ghost use Rattle.pact_operators.specs.Programs.{HasArity, IsPlanOf, Takes};
ghost use Rattle.pact_record.specs.Widths.{AreWide};
ghost use Rattle.slow_eval.specs.GivenRows.{rows_of};

use crate::given_rows::GivenRows;
use crate::grouping::{cogroup_rows, reduce_rows};
use pact_bag::{Counts, Inputs, Outcome, Rows};
use pact_operators::{Op, OpKind, Parts, Plan, Program};
use pact_record::OutOfMemory;
use std::alloc::Global;
use tac_interp::{cross_rows, map_rows, match_rows};

// The place of a source among the sources.
fn source_place(ops: &[Op], at: u32) -> usize
    requires { at ≤ length ops.now }
    ensures { result ≡ source_place ops.now at }
{
    let mut place = 0;
    for op in &ops[..at as usize] {
        if op.kind == OpKind::Source {
            place += 1;
        }
    }
    place
}

// What an operator of one input emits.
fn over_one(
    alloc: Global,
    program: &Program,
    at: u32,
    below: GivenRows<'_>,
) -> Result<Rows, OutOfMemory>
    requires takes { Takes program.now.ops at 1 }
    requires widths { AreWide program.now.fields (rows_of below) }
    ensures given { IfOk result (λ out. (inputs : List (List (List FieldValue))) → Gives (plan_ops program.now inputs) (kind_at program.now.ops at) at (rows_of below.entry) out) }
    ensures widths { IfOk result (AreWide program.now.fields) }
{
    let _kept = program.fields();
    let op = &program.ops()[at as usize];
    let f = &program.functions()[op.function as usize];
    match op.kind {
        OpKind::Map => map_rows(alloc, f, below.into_rows(alloc)?),
        OpKind::Reduce => reduce_rows(alloc, f, &op.left_keys, below.rows()),
        OpKind::Source | OpKind::Match | OpKind::Cross | OpKind::CoGroup => unreachable!(),
    }
}

// What an operator of two inputs emits.
fn over_two(
    alloc: Global,
    program: &Program,
    at: u32,
    lefts: &Rows,
    rights: &Rows,
) -> Result<Rows, OutOfMemory>
    requires takes { Takes program.now.ops at 2 }
    requires left_widths { AreWide program.now.fields lefts.now }
    requires right_widths { AreWide program.now.fields rights.now }
    ensures given { IfOk result (λ out. (inputs : List (List (List FieldValue))) → GivesBoth (plan_ops program.now inputs) (kind_at program.now.ops at) at lefts.now rights.now out) }
    ensures widths { IfOk result (AreWide program.now.fields) }
{
    let _kept = program.fields();
    let op = &program.ops()[at as usize];
    let f = &program.functions()[op.function as usize];
    let (left_keys, right_keys) = (&op.left_keys, &op.right_keys);
    match op.kind {
        OpKind::Match => {
            match_rows(
                alloc,
                program.nulls_match(),
                f,
                left_keys,
                right_keys,
                lefts,
                rights,
            )
        }
        OpKind::Cross => cross_rows(alloc, f, lefts, rights),
        OpKind::CoGroup => cogroup_rows(alloc, f, left_keys, right_keys, lefts, rights),
        OpKind::Source | OpKind::Map | OpKind::Reduce => unreachable!(),
    }
}

// Sets only the counts of the plan's own numbers.
fn evaluate_into<'a>(
    alloc: Global,
    program: &Program,
    plan: &Plan,
    inputs: &'a Inputs,
    counts: &mut Counts,
) -> Result<GivenRows<'a>, OutOfMemory>
    requires arity { HasArity program.now.ops plan.now }
    requires inputs { AreInputsOf program.now inputs.now }
    requires counts { length counts.old ≡ length program.now.ops }
    ensures counted { IfOk result (λ given. Counted (plan_ops program.now inputs.now) plan.now (rows_of given) counts.new) }
    ensures others { OnOk result ((n : ℕ) → IsAbsent n (nodes plan.now) → slice_get counts.new n ≡ slice_get counts.old n) }
    ensures counts { length counts.new ≡ length program.now.ops }
    ensures widths { IfOk result (λ given. AreWide program.now.fields (rows_of given)) }
{
    match plan.parts() {
        Parts::Alone { at } => {
            let place = source_place(program.ops(), at);
            let rows = inputs.at(place);
            counts.set(at as usize, rows.len() as u64);
            Ok(GivenRows::Lent(rows))
        }
        Parts::OverOne { at, input } => {
            let below = evaluate_into(alloc, program, &input, inputs, counts)?;
            let rows = over_one(alloc, program, at, below)?;
            counts.set(at as usize, rows.len() as u64);
            Ok(GivenRows::Own(rows))
        }
        Parts::OverTwo { at, left, right } => {
            let lefts = evaluate_into(alloc, program, &left, inputs, counts)?;
            let rights = evaluate_into(alloc, program, &right, inputs, counts)?;
            let rows = over_two(alloc, program, at, lefts.rows(), rights.rows())?;
            counts.set(at as usize, rows.len() as u64);
            Ok(GivenRows::Own(rows))
        }
    }
}

/// The root's rows in one evaluation of a plan, and how many rows each source and operator emitted in it.
///
/// It checks every pair of a Match, and every row for each key of a Reduce or a CoGroup. So the time grows with rows
/// times rows and with rows times keys. Out of memory is the only error.
pub fn evaluate(
    alloc: Global,
    program: &Program,
    plan: &Plan,
    inputs: &Inputs,
) -> Result<Outcome, OutOfMemory>
    requires plan { IsPlanOf program.now.functions program.now.ops plan.now }
    requires inputs { AreInputsOf program.now inputs.now }
    ensures counted { IfOk result (λ o. Counted (plan_ops program.now inputs.now) plan.now o.rows o.counts) }
    ensures allowed { IfOk result (λ o. Allows (plan_ops program.now inputs.now) plan.now o.rows) }
    ensures counts { IfOk result (λ o. length o.counts ≡ length program.now.ops) }
    ensures widths { IfOk result (λ o. AreWide program.now.fields o.rows) }
{
    let mut counts = Counts::zeros(alloc, program.ops().len())?;
    let given = evaluate_into(alloc, program, plan, inputs, &mut counts)?;
    let rows = given.into_rows(alloc)?;
    Ok(Outcome { rows, counts })
}
