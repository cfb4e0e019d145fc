//! Exchanges of a Reduce and a Match, and of neighbouring operators by any rule.

ghost use Rattle.std.specs.Prelude.{◌≡◌, ◌↔◌, IfErr, IfOk, IsOk, IsTrue};
ghost use Rattle.plan_trees.specs.Plans.{subtree_of};
ghost use Rattle.pact_operators.specs.Programs.{IsPlanOf};
ghost use Rattle.reorder_pair.specs.FindingTable.{AreFindings};
ghost use Rattle.reorder_pair.specs.Legal.{IsConditionOf, IsFoundAt, IsLegal, IsRefusal, KeepAnswers};
ghost use Rattle.reorder_pair.specs.Places.{IsPlace};
ghost use Rattle.reorder_pair.specs.Rules.{IsUniqueRule, exchanged_by, swapped};
ghost use Rattle.reorder_group.specs.OtherSides.{IsOtherUnique, other_input, other_keys};
ghost use Rattle.reorder_group.specs.UniqueRows.{AllowsEachOnce};

use crate::group_exchanges::{legal_group, legal_group_for};
use crate::match_conditions::{other_side, past_match};
use crate::unique_trees::{tree_is_unique, tree_is_unique_by};
use pact_operators::{Plan, Program};
use pact_record::OutOfMemory;
use reorder_pair::{
    Condition, Findings, Found, NotLegal, Rule, exchanged_tree, found, legal_but_for_groups,
    swapped_plan,
};

// Whether the side of the Match past which the rule's Reduce moves is unique for the Match's keys there.
fn is_other_unique(program: &Program, plan: &Plan, at: u32, rule: Rule) -> bool
    requires place { IsPlace program.now plan.now at rule }
    ensures { IsTrue result ↔ IsOtherUnique program.now plan.now at rule }
{
    let before = plan.subtree(at);
    let after = exchanged_tree(plan, at, rule);
    let other = other_side(program, rule, &before, &after);
    tree_is_unique(program, &other.tree, &other.keys)
}

/// Whether the Reduce and the Match that the rule exchanges at a place of a plan may change places. The rule is one of the last four.
pub fn legal_unique(
    program: &Program,
    plan: &Plan,
    at: u32,
    rule: Rule,
) -> Result<Condition, NotLegal>
    requires plan { IsPlanOf program.now.functions program.now.ops plan.now }
    requires rule { IsUniqueRule rule }
    ensures legal { IfOk result (IsConditionOf program.now plan.now at rule) }
    ensures refused { IfErr result (IsRefusal program.now plan.now at rule) }
    ensures legal_always { IsLegal program.now plan.now at rule → IsOk result }
    ensures answers { IfOk result (λ c. KeepAnswers program.now plan.now (swapped rule at plan.now)) }
{
    match found(program, plan, at, rule) {
        Some((upper, lower)) => {
            let unique = is_other_unique(program, plan, at, rule);
            legal_unique_for(program, plan, at, rule, &upper, &lower, unique)
        }
        None => Err(NotLegal::NoPlace),
    }
}

/// Whether the two may change places, for a rule with a place there. `upper` and `lower` are the findings about the
/// two. `unique` says whether the other side of the Match is unique for its keys there.
pub fn legal_unique_for(
    program: &Program,
    plan: &Plan,
    at: u32,
    rule: Rule,
    upper: &Found,
    lower: &Found,
    unique: bool,
) -> Result<Condition, NotLegal>
    requires plan { IsPlanOf program.now.functions program.now.ops plan.now }
    requires rule { IsUniqueRule rule }
    requires found { IsFoundAt program.now plan.now at rule upper.now lower.now }
    requires unique { IsTrue unique ↔ IsOtherUnique program.now plan.now at rule }
    ensures legal { IfOk result (IsConditionOf program.now plan.now at rule) }
    ensures refused { IfErr result (IsRefusal program.now plan.now at rule) }
    ensures legal_always { IsLegal program.now plan.now at rule → IsOk result }
    ensures answers { IfOk result (λ c. KeepAnswers program.now plan.now (swapped rule at plan.now)) }
    ensures upper { IfOk result (λ c. c.upper ≡ upper.now) }
    ensures lower { IfOk result (λ c. c.lower ≡ lower.now) }
{
    // `fields` makes it known that the program follows every rule.
    let _fields = program.fields();
    if let Err(why) = legal_but_for_groups(program, plan, at, rule, upper, lower) {
        return Err(why);
    }
    let before = plan.subtree(at);
    let after = exchanged_tree(plan, at, rule);
    match past_match(program, rule, &before, &after, unique, upper, lower) {
        Ok(()) => Ok(Condition {
            rule,
            at,
            upper: *upper,
            lower: *lower,
        }),
        Err(why) => Err(why),
    }
}

/// The plan in which the two have changed places. The rule is one of the last four, and legal there.
pub fn apply_unique(program: &Program, plan: &Plan, at: u32, rule: Rule) -> Plan
    requires plan { IsPlanOf program.now.functions program.now.ops plan.now }
    requires rule { IsUniqueRule rule }
    requires legal { IsLegal program.now plan.now at rule }
    ensures swapped { result ≡ swapped rule at plan.now }
    ensures answers { KeepAnswers program.now plan.now result }
    ensures plan { IsPlanOf program.now.functions program.now.ops result }
{
    // `fields` makes it known that the program follows every rule.
    let _fields = program.fields();
    swapped_plan(plan, at, rule)
}

// ---- for any rule

fn is_unique_rule(rule: Rule) -> bool
    ensures { IsTrue result ↔ IsUniqueRule rule }
{
    match rule {
        Rule::ReduceMatchLeft
        | Rule::ReduceMatchLeftUp
        | Rule::ReduceMatchRight
        | Rule::ReduceMatchRightUp => true,
        Rule::MapMap
        | Rule::MapLeft
        | Rule::MapLeftUp
        | Rule::MapRight
        | Rule::MapRightUp
        | Rule::Rotate
        | Rule::RotateUp
        | Rule::MapReduce
        | Rule::MapReduceUp
        | Rule::MapCoGroupLeft
        | Rule::MapCoGroupLeftUp
        | Rule::MapCoGroupRight
        | Rule::MapCoGroupRightUp => false,
    }
}

/// Whether the rule may exchange the operator at a place of a plan with the one below it.
pub fn legal(program: &Program, plan: &Plan, at: u32, rule: Rule) -> Result<Condition, NotLegal>
    requires plan { IsPlanOf program.now.functions program.now.ops plan.now }
    ensures legal { IfOk result (IsConditionOf program.now plan.now at rule) }
    ensures refused { IfErr result (IsRefusal program.now plan.now at rule) }
    ensures legal_always { IsLegal program.now plan.now at rule → IsOk result }
    ensures answers { IfOk result (λ c. KeepAnswers program.now plan.now (swapped rule at plan.now)) }
{
    if is_unique_rule(rule) {
        legal_unique(program, plan, at, rule)
    } else {
        legal_group(program, plan, at, rule)
    }
}

/// Whether the side of the Match past which the rule's Reduce moves is unique for the Match's keys there, by the table
/// of findings; new findings are added to it. The result has no meaning for the first thirteen rules.
pub fn other_is_unique(
    program: &Program,
    findings: &mut Findings,
    plan: &Plan,
    at: u32,
    rule: Rule,
) -> Result<bool, OutOfMemory>
    requires place { IsPlace program.now plan.now at rule }
    requires findings { AreFindings program.now findings.old }
    ensures unique { IfOk result (λ told. IsUniqueRule rule → (IsTrue told ↔ IsOtherUnique program.now plan.now at rule)) }
    ensures once { IfOk result (λ told. IsUniqueRule rule → IsTrue told → AllowsEachOnce program.now (other_input rule (subtree_of at plan.now) (exchanged_by rule (subtree_of at plan.now))) (other_keys program.now rule (subtree_of at plan.now) (exchanged_by rule (subtree_of at plan.now)))) }
    ensures findings { AreFindings program.now findings.new }
{
    // `fields` makes it known that the program follows every rule.
    let _fields = program.fields();
    if !is_unique_rule(rule) {
        return Ok(false);
    }
    let before = plan.subtree(at);
    let after = exchanged_tree(plan, at, rule);
    let other = other_side(program, rule, &before, &after);
    tree_is_unique_by(program, findings, &other.tree, &other.keys)
}

/// Whether the two may change places, for a rule with a place there. `upper` and `lower` are the findings about the
/// two. For the last four rules, `unique` says whether the other side of the Match is unique for its keys there.
pub fn legal_for(
    program: &Program,
    plan: &Plan,
    at: u32,
    rule: Rule,
    upper: &Found,
    lower: &Found,
    unique: bool,
) -> Result<Condition, NotLegal>
    requires plan { IsPlanOf program.now.functions program.now.ops plan.now }
    requires unique { IsUniqueRule rule → (IsTrue unique ↔ IsOtherUnique program.now plan.now at rule) }
    requires found { IsFoundAt program.now plan.now at rule upper.now lower.now }
    ensures legal { IfOk result (IsConditionOf program.now plan.now at rule) }
    ensures refused { IfErr result (IsRefusal program.now plan.now at rule) }
    ensures legal_always { IsLegal program.now plan.now at rule → IsOk result }
    ensures answers { IfOk result (λ c. KeepAnswers program.now plan.now (swapped rule at plan.now)) }
    ensures upper { IfOk result (λ c. c.upper ≡ upper.now) }
    ensures lower { IfOk result (λ c. c.lower ≡ lower.now) }
{
    if is_unique_rule(rule) {
        legal_unique_for(program, plan, at, rule, upper, lower, unique)
    } else {
        legal_group_for(program, plan, at, rule, upper, lower)
    }
}

/// The plan in which the operator at the place and the one below it have changed places. The exchange is legal there.
pub fn apply(program: &Program, plan: &Plan, at: u32, rule: Rule) -> Plan
    requires plan { IsPlanOf program.now.functions program.now.ops plan.now }
    requires legal { IsLegal program.now plan.now at rule }
    ensures swapped { result ≡ swapped rule at plan.now }
    ensures answers { KeepAnswers program.now plan.now result }
    ensures plan { IsPlanOf program.now.functions program.now.ops result }
{
    // `fields` makes it known that the program follows every rule.
    let _fields = program.fields();
    swapped_plan(plan, at, rule)
}
