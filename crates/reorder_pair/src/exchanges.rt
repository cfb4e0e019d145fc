//! Exchanges of neighbouring operators of a plan.

ghost use Rattle.std.specs.Prelude.{◌≡◌, true, IfErr, IfNone, IfOk, IfSome, IsOk};
ghost use Rattle.plan_trees.specs.Plans.{has, subtree_of};
ghost use Rattle.plan_trees.specs.Shapes.{HasShape};
ghost use Rattle.pact_operators.specs.Programs.{IsPlanOf};
ghost use Rattle.reorder_pair.specs.Conditions.{AllPass, FirstFails};
ghost use Rattle.reorder_pair.specs.Legal.{IsConditionOf, IsFoundAt, IsLegal, IsRefusal, KeepAnswers, shared_at};
ghost use Rattle.reorder_pair.specs.Places.{AreNeighbours, IsPlace};
ghost use Rattle.reorder_pair.specs.Rules.{IsPairRule, exchange_of, exchanged_by, swapped};

use crate::finding::{Found, Neighbours, found_for, neighbours_in};
use crate::legality::{Condition, NotLegal, judged};
use crate::rules::Rule;
use crate::trees::{Trees, trees_of};
use pact_operators::{Plan, Program};

/// The two operators that the rule exchanges at a place of a plan. None if it has no place there.
pub fn neighbours(program: &Program, plan: &Plan, at: u32, rule: Rule) -> Option<Neighbours>
    ensures some { IfSome result (AreNeighbours program.now plan.now at rule) }
    ensures none { IfNone result (IsPlace program.now plan.now at rule → ⊥) }
{
    let trees = trees_of(program, plan, at, rule)?;
    Some(neighbours_in(program, plan, at, rule, &trees))
}

/// The findings about the operator at a place of a plan and about the one below it that the rule exchanges with it: for
/// each, in all that its inputs may hold before the exchange or after it. None if the rule has no place there.
pub fn found(program: &Program, plan: &Plan, at: u32, rule: Rule) -> Option<(Found, Found)>
    requires plan { IsPlanOf program.now.functions program.now.ops plan.now }
    ensures found { IfSome result (λ both. IsFoundAt program.now plan.now at rule both.0 both.1) }
    ensures none { IfNone result (IsPlace program.now plan.now at rule → ⊥) }
{
    let both = neighbours(program, plan, at, rule)?;
    let upper = found_for(program, both.upper, &both.upper_context);
    let lower = found_for(program, both.lower, &both.lower_context);
    Some((upper, lower))
}

/// The tree of the operator at the place, after it and the one below it have changed places.
pub fn exchanged_tree(plan: &Plan, at: u32, rule: Rule) -> Plan
    requires node { has at plan.now ≡ true }
    requires shape { HasShape (exchange_of rule).shape (subtree_of at plan.now) }
    ensures { result ≡ exchanged_by rule (subtree_of at plan.now) }
{
    let tree = plan.subtree(at);
    tree.exchanged(rule.exchange().shape).unwrap_or(tree)
}

/// The conditions that all rules have, for a rule with a place there: the two operators don't conflict, and neither
/// touches a side that it moves past. `upper` and `lower` are the findings about the two.
pub fn legal_but_for_groups(
    program: &Program,
    plan: &Plan,
    at: u32,
    rule: Rule,
    upper: &Found,
    lower: &Found,
) -> Result<(), NotLegal>
    requires found { IsFoundAt program.now plan.now at rule upper.now lower.now }
    ensures passes { IfOk result (λ x. AllPass (shared_at program.now plan.now at rule upper.now lower.now)) }
    ensures fails { IfErr result (FirstFails (shared_at program.now plan.now at rule upper.now lower.now)) }
{
    let trees = Trees {
        before: plan.subtree(at),
        after: exchanged_tree(plan, at, rule),
    };
    judged(program, rule.exchange().shape, &trees, upper, lower)
}

/// Whether the rule may exchange the operator at a place of a plan with the one below it. The rule is one of the first
/// seven.
pub fn legal_pair(
    program: &Program,
    plan: &Plan,
    at: u32,
    rule: Rule,
) -> Result<Condition, NotLegal>
    requires plan { IsPlanOf program.now.functions program.now.ops plan.now }
    requires pair { IsPairRule rule }
    ensures legal { IfOk result (IsConditionOf program.now plan.now at rule) }
    ensures refused { IfErr result (IsRefusal program.now plan.now at rule) }
    ensures legal_always { IsLegal program.now plan.now at rule → IsOk result }
    ensures answers { IfOk result (λ c. KeepAnswers program.now plan.now (swapped rule at plan.now)) }
{
    // `fields` makes it known that the program follows every rule.
    let _fields = program.fields();
    let Some((upper, lower)) = found(program, plan, at, rule) else {
        return Err(NotLegal::NoPlace);
    };
    match legal_but_for_groups(program, plan, at, rule, &upper, &lower) {
        Ok(()) => Ok(Condition {
            rule,
            at,
            upper,
            lower,
        }),
        Err(why) => Err(why),
    }
}

/// The plan in which the exchanged tree replaces the operator's tree.
pub fn swapped_plan(plan: &Plan, at: u32, rule: Rule) -> Plan
    requires node { has at plan.now ≡ true }
    requires shape { HasShape (exchange_of rule).shape (subtree_of at plan.now) }
    ensures { result ≡ swapped rule at plan.now }
{
    // `root` makes it known that the numbers of a plan differ.
    let _root = plan.root();
    plan.with_subtree(at, &exchanged_tree(plan, at, rule))
}

/// The plan in which the operator at the place and the one below it have changed places. The rule is one of the first
/// seven, and legal there.
pub fn apply_pair(program: &Program, plan: &Plan, at: u32, rule: Rule) -> Plan
    requires plan { IsPlanOf program.now.functions program.now.ops plan.now }
    requires pair { IsPairRule rule }
    requires legal { IsLegal program.now plan.now at rule }
    ensures swapped { result ≡ swapped rule at plan.now }
    ensures answers { KeepAnswers program.now plan.now result }
    ensures plan { IsPlanOf program.now.functions program.now.ops result }
{
    // `fields` makes it known that the program follows every rule.
    let _fields = program.fields();
    swapped_plan(plan, at, rule)
}
