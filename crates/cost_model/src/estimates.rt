//! How many records a source or an operator is expected to emit.

ghost use Rattle.std.specs.Prelude.{◌≡◌, true, get_or};
ghost use Rattle.tac_syntax.specs.EmitBounds.{least_emits, most_emits};
ghost use Rattle.plan_trees.specs.Plans.{has, subtree_of};
ghost use Rattle.pact_operators.specs.PlanOps.{body_at, kind_at};
ghost use Rattle.pact_operators.specs.Programs.{body_of};
ghost use Rattle.cost_model.specs.Estimates as estimates;

use pact_bag::Counts;
use pact_operators::{OpKind, Parts, Plan, Program};
use tac_syntax::Valid;

/// The sum, capped at the greatest number of 64 bits.
pub fn plus(a: u64, b: u64) -> u64
    ensures { result ≡ estimates.plus a b }
{
    a.saturating_add(b)
}

/// The product, capped at the same number.
pub(crate) fn times(a: u64, b: u64) -> u64
    ensures { result ≡ estimates.times a b }
{
    a.saturating_mul(b)
}

// The estimate for a Map whose calls each emit at least `least` and at most `most` records.
fn of_map(least: u32, most: u32, n: u64) -> u64
    ensures { result ≡ estimates.of_map least most n }
{
    if least == 1 && most == 1 {
        return n;
    }
    if least == 0 && most == 1 {
        return plus(n, 1) / 2;
    }
    if most == 0 {
        return 0;
    }
    times(n, most.min(4) as u64)
}

// How many records a call of the function with this number emits, at least and at most.
fn called_bounds(functions: &[Valid], number: u32) -> (u32, u32)
    ensures least { result.0 ≡ least_emits (body_of functions.now number) }
    ensures most { result.1 ≡ most_emits (body_of functions.now number) }
{
    match functions.get(number as usize) {
        Some(called) => emit_bounds::bounds(called),
        None => (0, 0),
    }
}

// The estimate for an operator of one input.
fn estimate_over(kind: OpKind, functions: &[Valid], function: u32, n: u64) -> u64
    ensures { result ≡ estimates.estimate_over kind (least_emits (body_of functions.now function)) (most_emits (body_of functions.now function)) n }
{
    match kind {
        OpKind::Map => {
            let (least, most) = called_bounds(functions, function);
            of_map(least, most, n)
        }
        OpKind::Reduce => plus(n, 3) / 4,
        _ => 0,
    }
}

// The estimate for an operator of two inputs.
fn estimate_both(kind: OpKind, m: u64, n: u64) -> u64
    ensures { result ≡ estimates.estimate_both kind m n }
{
    match kind {
        OpKind::Match => m.max(n),
        OpKind::Cross => times(m, n),
        OpKind::CoGroup => plus(m, n),
        _ => 0,
    }
}

/// How many records the operator of one input is expected to emit for an input of `n`.
pub fn estimate_above_one(program: &Program, at: u32, n: u64) -> u64
    ensures { result ≡ estimates.estimate_over (kind_at program.now.ops at) (least_emits (body_at program.now at)) (most_emits (body_at program.now at)) n }
{
    match program.ops().get(at as usize) {
        Some(op) => estimate_over(op.kind, program.functions(), op.function, n),
        None => 0,
    }
}

/// How many records the operator of two inputs is expected to emit for inputs of `m` and `n`.
pub fn estimate_above_two(program: &Program, at: u32, m: u64, n: u64) -> u64
    ensures { result ≡ estimates.estimate_both (kind_at program.now.ops at) m n }
{
    match program.ops().get(at as usize) {
        Some(op) => estimate_both(op.kind, m, n),
        None => 0,
    }
}

/// How many rows the source has; 0 if it has no count.
pub fn rows_at(counts: &Counts, at: u32) -> u64
    ensures { result ≡ get_or counts.now at 0 }
{
    if (at as usize) < counts.len() {
        counts.at(at as usize)
    } else {
        0
    }
}

/// How many records the root of the tree is expected to emit.
pub fn estimate_of(program: &Program, counts: &Counts, tree: &Plan) -> u64
    ensures { result ≡ estimates.estimate program.now counts.now tree.now }
{
    match tree.parts() {
        Parts::Alone { at } => rows_at(counts, at),
        Parts::OverOne { at, input } => {
            estimate_above_one(program, at, estimate_of(program, counts, &input))
        }
        Parts::OverTwo { at, left, right } => {
            let m = estimate_of(program, counts, &left);
            let n = estimate_of(program, counts, &right);
            estimate_above_two(program, at, m, n)
        }
    }
}

/// How many records the source or operator with this number is expected to emit in the plan.
pub fn estimate(program: &Program, plan: &Plan, counts: &Counts, at: u32) -> u64
    requires { has at plan.now ≡ true }
    ensures { result ≡ estimates.estimate program.now counts.now (subtree_of at plan.now) }
{
    estimate_of(program, counts, &plan.subtree(at))
}
