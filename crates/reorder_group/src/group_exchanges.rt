//! Exchanges of neighbouring operators of a plan, by the first thirteen rules.

ghost use Rattle.std.specs.Prelude.{◌≡◌, IfErr, IfOk, IsOk};
ghost use Rattle.pact_operators.specs.Programs.{IsPlanOf};
ghost use Rattle.reorder_pair.specs.Legal.{IsConditionOf, IsFoundAt, IsLegal, IsRefusal, KeepAnswers};
ghost use Rattle.reorder_pair.specs.Rules.{IsMapOrPairRule, swapped};

use crate::group_conditions::past_groups;
use pact_operators::{Plan, Program};
use reorder_pair::{
    Condition, Found, NotLegal, Rule, exchanged_tree, found, legal_but_for_groups, swapped_plan,
};

/// Whether the rule may exchange the operator at a place of a plan with the one below it.
pub fn legal_group(
    program: &Program,
    plan: &Plan,
    at: u32,
    rule: Rule,
) -> Result<Condition, NotLegal>
    requires plan { IsPlanOf program.now.functions program.now.ops plan.now }
    requires rule { IsMapOrPairRule rule }
    ensures legal { IfOk result (IsConditionOf program.now plan.now at rule) }
    ensures refused { IfErr result (IsRefusal program.now plan.now at rule) }
    ensures legal_always { IsLegal program.now plan.now at rule → IsOk result }
    ensures answers { IfOk result (λ c. KeepAnswers program.now plan.now (swapped rule at plan.now)) }
{
    match found(program, plan, at, rule) {
        Some((upper, lower)) => legal_group_for(program, plan, at, rule, &upper, &lower),
        None => Err(NotLegal::NoPlace),
    }
}

/// Whether the two may change places, for a rule with a place there. `upper` and `lower` are the findings about the
/// two.
pub fn legal_group_for(
    program: &Program,
    plan: &Plan,
    at: u32,
    rule: Rule,
    upper: &Found,
    lower: &Found,
) -> Result<Condition, NotLegal>
    requires plan { IsPlanOf program.now.functions program.now.ops plan.now }
    requires rule { IsMapOrPairRule rule }
    requires found { IsFoundAt program.now plan.now at rule upper.now lower.now }
    ensures legal { IfOk result (IsConditionOf program.now plan.now at rule) }
    ensures refused { IfErr result (IsRefusal program.now plan.now at rule) }
    ensures legal_always { IsLegal program.now plan.now at rule → IsOk result }
    ensures answers { IfOk result (λ c. KeepAnswers program.now plan.now (swapped rule at plan.now)) }
    ensures upper { IfOk result (λ c. c.upper ≡ upper.now) }
    ensures lower { IfOk result (λ c. c.lower ≡ lower.now) }
{
    // `fields` makes it known that the program follows every rule.
    let _fields = program.fields();
    if let Err(why) = legal_but_for_groups(program, plan, at, rule, upper, lower) {
        return Err(why);
    }
    let below = exchanged_tree(plan, at, rule).root();
    match past_groups(program, rule, at, below, upper, lower) {
        Ok(()) => Ok(Condition {
            rule,
            at,
            upper: *upper,
            lower: *lower,
        }),
        Err(why) => Err(why),
    }
}

/// The plan in which the operator at the place and the one below it have changed places. The exchange is legal there.
pub fn apply_group(program: &Program, plan: &Plan, at: u32, rule: Rule) -> Plan
    requires plan { IsPlanOf program.now.functions program.now.ops plan.now }
    requires rule { IsMapOrPairRule rule }
    requires legal { IsLegal program.now plan.now at rule }
    ensures swapped { result ≡ swapped rule at plan.now }
    ensures answers { KeepAnswers program.now plan.now result }
    ensures plan { IsPlanOf program.now.functions program.now.ops result }
{
    // `fields` makes it known that the program follows every rule.
    let _fields = program.fields();
    swapped_plan(plan, at, rule)
}
