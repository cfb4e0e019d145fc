//! The trees of two neighbours that a rule exchanges, before and after.

ghost use Rattle.std.specs.Prelude.{◌≡◌, IfNone, IfSome};
ghost use Rattle.plan_trees.specs.Plans.{subtree_of};
ghost use Rattle.pact_operators.specs.PlanOps.{kind_at};
ghost use Rattle.reorder_pair.specs.Places.{IsPlace};
ghost use Rattle.reorder_pair.specs.Rules.{exchanged_by};

use crate::rules::Rule;
use pact_operators::{OpKind, Plan, Program};

// The tree of an operator that changes places with the one below it, before and after.
#[derive(Clone, Copy)]
pub(crate) struct Trees {
    pub before: Plan,
    pub after: Plan,
}

/// The kind of the operator or source with the number. A number that the program doesn't have counts as a source.
pub fn kind_of(program: &Program, at: u32) -> OpKind
    ensures { result ≡ kind_at program.now.ops at }
{
    match program.ops().get(at as usize) {
        Some(op) => op.kind,
        None => OpKind::Source,
    }
}

// The trees of an exchange, if the rule has a place there.
pub(crate) fn trees_of(program: &Program, plan: &Plan, at: u32, rule: Rule) -> Option<Trees>
    ensures place { IfSome result (λ trees. IsPlace program.now plan.now at rule) }
    ensures before { IfSome result (λ trees. trees.before ≡ subtree_of at plan.now) }
    ensures after { IfSome result (λ trees. trees.after ≡ exchanged_by rule (subtree_of at plan.now)) }
    ensures none { IfNone result (IsPlace program.now plan.now at rule → ⊥) }
{
    if !plan.has(at) {
        return None;
    }
    let exchange = rule.exchange();
    let before = plan.subtree(at);
    let after = before.exchanged(exchange.shape)?;
    let is_upper = exchange.upper.is_played_by(kind_of(program, at));
    let is_lower = exchange.lower.is_played_by(kind_of(program, after.root()));
    if !is_upper || !is_lower {
        return None;
    }
    Some(Trees { before, after })
}
