//! The findings about the operators of an exchange.

ghost use Rattle.std.specs.Prelude.{◌≡◌, true};
ghost use Rattle.tac_syntax.specs.declared.declarations.OpKind.TheVariants.{Source};
ghost use Rattle.tac_syntax.specs.Contexts.{IsContextOf};
ghost use Rattle.plan_trees.specs.Plans.{has, subtree_of};
ghost use Rattle.pact_operators.specs.PlanOps.{kind_at};
ghost use Rattle.reorder_pair.specs.Places.{AreNeighbours, IsFound, IsFoundFor, IsOperatorIn, IsPlace, IsUnionOf};
ghost use Rattle.reorder_pair.specs.Rules.{exchanged_by};

use crate::rules::Rule;
use crate::trees::Trees;
use pact_operators::{Plan, Program, context};
use tac_flow::Sets;
use tac_syntax::Context;

/// The findings about an operator's function: the fields that it reads, writes, decides by and touches, and how many
/// records a call of it emits, at least and at most; `emit_bounds::MANY` means that there is no bound.
#[derive(Clone, Copy, Debug, PartialEq, Eq)]
pub struct Found {
    pub sets: Sets,
    pub lo: u32,
    pub hi: u32,
}

/// The two operators that a rule exchanges at a place of a plan: their numbers, and what the inputs of each may hold before the exchange or after it.
#[derive(Clone, Copy, Debug)]
pub struct Neighbours {
    pub upper: u32,
    pub lower: u32,
    pub upper_context: Context,
    pub lower_context: Context,
}

// What the inputs of an operator that is in both trees may hold in one or the other.
fn united_context(program: &Program, at: u32, trees: &Trees) -> Context
    requires before { has at trees.now.before ≡ true }
    requires after { has at trees.now.after ≡ true }
    ensures union { IsUnionOf program.now at trees.now.before trees.now.after result }
    ensures fields { (kind_at program.now.ops at ≡ Source → ⊥) → IsContextOf program.now.fields result }
{
    context(program, &trees.before, at).union(&context(program, &trees.after, at))
}

/// The findings about an operator in a context.
pub fn found_for(program: &Program, at: u32, context: &Context) -> Found
    requires operator { IsOperatorIn program.now at context.now }
    ensures { IsFoundFor program.now at context.now result }
{
    let function = program.function_at(at);
    let (lo, hi) = emit_bounds::bounds(function);
    Found {
        sets: tac_flow::sets(function, context),
        lo,
        hi,
    }
}

// What the inputs of an operator may hold in the plan.
pub(crate) fn context_in_plan(program: &Program, plan: &Plan, at: u32) -> Context
    requires place { has at plan.now ≡ true }
    ensures union { IsUnionOf program.now at plan.now plan.now result }
    ensures fields { (kind_at program.now.ops at ≡ Source → ⊥) → IsContextOf program.now.fields result }
{
    let trees = Trees {
        before: *plan,
        after: *plan,
    };
    united_context(program, at, &trees)
}

/// The findings about an operator in the context that it has in the plan.
pub fn found_in_plan(program: &Program, plan: &Plan, at: u32) -> Found
    requires operator { kind_at program.now.ops at ≡ Source → ⊥ }
    requires place { has at plan.now ≡ true }
    ensures { IsFound program.now at plan.now plan.now result }
{
    let context = context_in_plan(program, plan, at);
    found_for(program, at, &context)
}

// The upper and the lower operator of the exchange with these trees.
pub(crate) fn neighbours_in(
    program: &Program,
    plan: &Plan,
    at: u32,
    rule: Rule,
    trees: &Trees,
) -> Neighbours
    requires place { IsPlace program.now plan.now at rule }
    requires before { trees.now.before ≡ subtree_of at plan.now }
    requires after { trees.now.after ≡ exchanged_by rule (subtree_of at plan.now) }
    ensures { AreNeighbours program.now plan.now at rule result }
{
    let upper = trees.before.root();
    let lower = trees.after.root();
    Neighbours {
        upper,
        lower,
        upper_context: united_context(program, upper, trees),
        lower_context: united_context(program, lower, trees),
    }
}
