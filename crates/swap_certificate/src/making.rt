//! Makes the certificate of exchanges.

ghost use Rattle.std.specs.Prelude.{◌≡◌, IfOk, Ok};
ghost use Rattle.reorder_pair.specs.ToldExchanges.{Lead};
ghost use Rattle.swap_certificate.specs.Checks.{Checks, certificate_of, step_of};
ghost use Rattle.pact_operators.specs.Programs.{AreNames};
ghost use Rattle.swap_certificate.specs.PlanLines.{name_at};
ghost use Rattle.swap_certificate.specs.Shape.{MayBeStated};

use crate::certificates::{Certificate, Step, Steps};
use crate::names::plan_line;
use pact_operators::{Op, Plan, Program};
use pact_record::{OutOfMemory, Word};
use reorder_pair::Condition;
use std::alloc::Global;

// The name of an operator, or an empty name if there is none with that number.
fn name_of(alloc: Global, ops: &[Op], at: u32) -> Result<Word, OutOfMemory>
    ensures { IfOk result (λ name. name ≡ name_at ops.now at) }
{
    match ops.get(at as usize) {
        Some(op) => Word::from_bytes(alloc, op.name.bytes()),
        None => Word::from_bytes(alloc, b""),
    }
}

// The step that states an exchange.
fn stated(alloc: Global, program: &Program, condition: &Condition) -> Result<Step, OutOfMemory>
    ensures { IfOk result (λ step. step ≡ step_of program.now condition.now) }
{
    let rule = Word::from_bytes(alloc, condition.rule.word().as_bytes())?;
    let at = name_of(alloc, program.ops(), condition.at)?;
    Ok(Step {
        rule,
        at,
        upper: condition.upper,
        lower: condition.lower,
    })
}

/// The certificate of exchanges, one step for each, and of the plan that they lead to. If the exchanges are legal and
/// lead there from the plan as written, `recheck` accepts it. If the names are also ones that a program text can have,
/// it can be written. Out of memory is the only error.
pub fn certificate(
    alloc: Global,
    program: &Program,
    by: &[Condition],
    end: &Plan,
) -> Result<Certificate, OutOfMemory>
    ensures certificate { IfOk result (λ c. c ≡ certificate_of program.now by.now end.now) }
    ensures accepted { IfOk result (λ c. Lead program.now program.now.plan by.now end.now → Checks program.now c (Ok end.now)) }
    ensures can_be_written { IfOk result (λ c. AreNames program.now.ops → Lead program.now program.now.plan by.now end.now → MayBeStated c) }
{
    let mut steps = Steps::new(alloc);
    for condition in by {
        steps.push(stated(alloc, program, condition)?)?;
    }
    // this call shows the prover that the numbers of a plan differ, so that there are few of them
    let _root = end.root();
    let plan = plan_line(alloc, program.ops(), end)?;
    Ok(Certificate {
        version: program.version(),
        steps,
        plan,
    })
}
