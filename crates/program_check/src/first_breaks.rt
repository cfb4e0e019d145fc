//! The first declaration that breaks a rule.

ghost use Rattle.std.specs.Prelude.{◌≡◌, ◌<◌, ◌≤◌, [], IfSome, IfNone};
ghost use Rattle.program_check.specs.declared.program_rules.ProgramRule.TheVariants.{NotATree, NoAttribute};
ghost use Rattle.program_check.specs.AttributeTests.{AreAttributesKnown};
ghost use Rattle.program_check.specs.Checks.{BreaksFirstAt};
ghost use Rattle.program_check.specs.ProgramRules.{NoneBreaks, order_of};
ghost use Rattle.pact_operators.specs.Programs.{IsWrittenPlan};
ghost use Rattle.program_check.specs.RuleTests.{AreReached};

use crate::attribute_tests::breaks_attributes;
use crate::candidates::Candidate;
use crate::counts::Counts;
use crate::program_rules::ProgramRule;
use crate::rule_tests::is_broken;
use pact_operators::Op;
use plan_trees::Plan;

/// The place of the first declaration that breaks a rule, for rules that need only the declarations.
pub fn first_break(rule: ProgramRule, candidate: &Candidate, reached: &[bool]) -> Option<usize>
    requires early { order_of rule < order_of NoAttribute }
    requires reached { rule ≡ NotATree → AreReached candidate.now.draft reached.now }
    ensures some { IfSome result (λ n. BreaksFirstAt rule candidate.now n) }
    ensures none { IfNone result (NoneBreaks rule candidate.now.draft candidate.now.valids [] candidate.now.draft.decls) }
{
    let mut counts = Counts::none();
    for (n, decl) in candidate.decls().iter().enumerate() {
        if is_broken(rule, candidate, reached, counts, decl) {
            return Some(n);
        }
        counts = counts.with(decl);
    }
    None
}

/// The place of the first declaration that breaks a rule about attributes, in the plan as written.
pub fn first_attribute_break(
    rule: ProgramRule,
    candidate: &Candidate,
    ops: &[Op],
    plan: &Plan,
) -> Option<usize>
    requires late { order_of NoAttribute ≤ order_of rule }
    requires known { AreAttributesKnown candidate.now ops.now }
    requires plan { IsWrittenPlan candidate.now.draft plan.now }
    ensures some { IfSome result (λ n. BreaksFirstAt rule candidate.now n) }
    ensures none { IfNone result (NoneBreaks rule candidate.now.draft candidate.now.valids [] candidate.now.draft.decls) }
{
    for (n, decl) in candidate.decls().iter().enumerate() {
        if breaks_attributes(rule, candidate, ops, plan, decl) {
            return Some(n);
        }
    }
    None
}
