//! Follows the steps of a certificate.

ghost use Rattle.std.specs.Prelude.{◌≡◌, ◌↔◌, ◌⊎◌, IfOk, IsTrue, Result, Err};
ghost use Rattle.plan_trees.specs.Plans.{PlanTree};
ghost use Rattle.pact_operators.specs.Programs.{IsPlanOf, NamesDiffer};
ghost use Rattle.reorder_pair.specs.FindingTable.{AreFindings};
ghost use Rattle.reorder_pair.specs.Legal.{KeepAnswers};
ghost use Rattle.reorder_pair.specs.Reach.{Reach};
ghost use Rattle.swap_certificate.specs.Checks.{Checks, Follows, StepTo};
ghost use Rattle.swap_certificate.specs.PlanLines.{line_of};
ghost use Rattle.swap_certificate.specs.declared.certificates.CertFault.{CertFault as FaultData};
ghost use Rattle.swap_certificate.specs.declared.certificates.CertFault.TheVariants.{Memory};

use crate::certificates::{CertFault, Certificate, Step};
use crate::names::{operator_named, plan_line};
use pact_operators::{Plan, Program};
use reorder_group::{apply, legal_for, other_is_unique};
use reorder_pair::{Findings, Found, Rule};
use std::alloc::Global;

// Whether a step states the sets and bounds that are found.
fn are_stated(upper: &Found, lower: &Found, step: &Step) -> bool
    ensures { IsTrue result ↔ ((upper.now ≡ step.now.upper) × (lower.now ≡ step.now.lower)) }
{
    upper == &step.upper && lower == &step.lower
}

// The plan after a step, or the step's fault.
fn check_step(
    program: &Program,
    findings: &mut Findings,
    plan: &Plan,
    step: &Step,
    number: u64,
) -> Result<Plan, CertFault>
    requires plan { IsPlanOf program.now.functions program.now.ops plan.now }
    requires names { NamesDiffer program.now.ops }
    requires findings { AreFindings program.now findings.old }
    ensures step { (result ≡ Err Memory → ⊥) → StepTo program.now number plan.now step.now result }
    ensures findings { IfOk result (λ _. AreFindings program.now findings.new) }
{
    let Some(rule) = Rule::of_word(step.rule.bytes()) else {
        return Err(CertFault::C2 { step: number });
    };
    // this call shows the prover that the numbers of a plan are small, and that each operator's is among them
    let _root = plan.root();
    let Some(at) = operator_named(program.ops(), step.at.bytes()) else {
        return Err(CertFault::C1 { step: number });
    };
    let Ok(found) = findings.found_at(program, plan, at, rule) else {
        return Err(CertFault::Memory);
    };
    let Some((upper, lower)) = found else {
        return Err(CertFault::C1 { step: number });
    };
    if !are_stated(&upper, &lower, step) {
        return Err(CertFault::C3 {
            step: number,
            upper,
            lower,
        });
    }
    let Ok(unique) = other_is_unique(program, findings, plan, at, rule) else {
        return Err(CertFault::Memory);
    };
    match legal_for(program, plan, at, rule, &upper, &lower, unique) {
        Ok(_) => Ok(apply(program, plan, at, rule)),
        Err(why) => Err(CertFault::C4 { step: number, why }),
    }
}

fn is_line(line: &[u8], stated: &[u8]) -> bool
    ensures { IsTrue result ↔ (stated.now ≡ line.now) }
{
    line == stated
}

// The plan that the steps lead to, if its line is the stated one. The version isn't checked here.
fn followed(alloc: Global, program: &Program, c: &Certificate) -> Result<Plan, CertFault>
    requires names { NamesDiffer program.now.ops }
    ensures checked { (result ≡ Err Memory → ⊥) → Follows program.now c.now result }
    ensures line { IfOk result (λ plan. c.now.plan ≡ line_of program.now.ops plan) }
    ensures reached { IfOk result (Reach program.now) }
{
    let mut findings = Findings::new(alloc);
    let mut plan = *program.plan();
    let mut number: u64 = 1;
    for step in c.steps.steps() {
        plan = match check_step(program, &mut findings, &plan, step, number) {
            Ok(next) => next,
            Err(fault) => return Err(fault),
        };
        number += 1;
    }
    let Ok(line) = plan_line(alloc, program.ops(), &plan) else {
        return Err(CertFault::Memory);
    };
    if is_line(line.bytes(), c.plan.bytes()) {
        Ok(plan)
    } else {
        Err(CertFault::C5 { found: line })
    }
}

fn is_version(program: &Program, c: &Certificate) -> bool
    ensures { IsTrue result ↔ (c.now.version ≡ program.now.version) }
{
    c.version == program.version()
}

/// The plan that a certificate leads to, or its first fault. Nothing that it states is trusted: its version is
/// compared, each rule and operator is looked up, the sets are found again, each exchange is checked, and the line of
/// the plan is compared. An operator is analysed once for each context that the steps give it. No two sources or
/// operators of the program may have the same name; programs that `check_program` returns meet this.
pub fn recheck(alloc: Global, program: &Program, c: &Certificate) -> Result<Plan, CertFault>
    requires names { NamesDiffer program.now.ops }
    ensures checked { (result ≡ Err Memory → ⊥) → Checks program.now c.now result }
    ensures only { (other : Result PlanTree FaultData) → Checks program.now c.now other → (result ≡ other) ⊎ (result ≡ Err Memory) }
    ensures line { IfOk result (λ plan. c.now.plan ≡ line_of program.now.ops plan) }
    ensures reached { IfOk result (Reach program.now) }
    ensures answers { IfOk result (KeepAnswers program.now program.now.plan) }
    ensures plan { IfOk result (IsPlanOf program.now.functions program.now.ops) }
{
    // this call shows the prover that the program keeps every rule
    let _fields = program.fields();
    if !is_version(program, c) {
        return Err(CertFault::C6 {
            stated: c.version,
            found: program.version(),
        });
    }
    followed(alloc, program, c)
}
